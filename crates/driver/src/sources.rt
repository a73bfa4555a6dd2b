//! Where sources are found, and their lines joined.

ghost use Rattle.std.specs.Prelude.{◌≡◌, IfErr, IfOk, IfSome, None};
ghost use Rattle.c_lines.specs.Spliced.{spliced};
ghost use Rattle.driver.specs.Statuses.{status_of};
ghost use Rattle.driver.specs.Printed.{KnownSources};
ghost use Rattle.driver.specs.Refused.{IsNoRefusal};

use crate::ending::Ending;
use c_lines::spliced;
use std::alloc::Global;

/// Why a source has no bytes.
#[derive(Clone, Copy, Debug, PartialEq, Eq)]
pub enum SourceError {
    Unreadable,
    OutOfMemory,
}

/// Where sources are found.
pub trait Sources {
    /// The bytes of each source by its name, where they are known.
    ghost known: { Self → KnownSources } = { λ _ _. None };

    /// The bytes of the source of that name.
    fn source(&mut self, name: &str) -> Result<Vec<u8>, SourceError>
        ensures bytes { IfOk result (λ v. IfSome (known self.old name.now) (λ xs. v.items ≡ xs)) }
        ensures unknown { IfErr result (λ e. e ≡ SourceError.Unreadable → known self.old name.now ≡ None) };
}

fn no_source(error: SourceError, name: &str) -> Ending<'_>
    ensures refused { IsNoRefusal result }
    ensures status { status_of result ≡ 2 → error ≡ SourceError.Unreadable }
{
    match error {
        SourceError::Unreadable => Ending::Unreadable(name),
        SourceError::OutOfMemory => Ending::OutOfMemory,
    }
}

/// A source as it stands, and with its lines joined that go on behind a backslash.
#[derive(Drop)]
pub(crate) struct Texts {
    pub(crate) source: Vec<u8>,
    pub(crate) bytes: Vec<u8>,
}

/// The source of that name.
pub(crate) fn texts_of<'a, S: Sources>(
    alloc: Global,
    sources: &mut S,
    name: &'a str,
) -> Result<Texts, Ending<'a>>
    ensures bytes { IfOk result (λ t. IfSome (S.known sources.old name.now) (λ xs. t.bytes.items ≡ spliced xs)) }
    ensures refused { IfErr result IsNoRefusal }
    ensures misused { IfErr result (λ e. status_of e ≡ 2 → S.known sources.old name.now ≡ None) }
{
    let source = match sources.source(name) {
        Ok(source) => source,
        Err(error) => return Err(no_source(error, name)),
    };
    match spliced(alloc, &source) {
        Ok(bytes) => Ok(Texts { source, bytes }),
        Err(_) => Err(Ending::OutOfMemory),
    }
}

/// The same with its lines joined alone.
pub(crate) fn bytes_of<'a, S: Sources>(
    alloc: Global,
    sources: &mut S,
    name: &'a str,
) -> Result<Vec<u8>, Ending<'a>>
    ensures bytes { IfOk result (λ v. IfSome (S.known sources.old name.now) (λ xs. v.items ≡ spliced xs)) }
    ensures refused { IfErr result IsNoRefusal }
    ensures misused { IfErr result (λ e. status_of e ≡ 2 → S.known sources.old name.now ≡ None) }
{
    let Texts { bytes, .. } = texts_of(alloc, sources, name)?;
    Ok(bytes)
}
