// The sections of map and depend items, and devices, with the loops' names at their values.

ghost use Rattle.std.specs.Prelude.{◌≡◌, ◌-◌, ◌^◌, min};
ghost use Rattle.base.specs.Items.{bound_value, device_of, less_value, section_of, term_value, terms_value};

use base::item::Section;
use base::tree::{Bound, DeviceId, DeviceText, SectionText, Term};

fn value_of(term: Term, loops: &[u64]) -> u64
    ensures { result ≡ min (term_value loops.now term) (2 ^ 64 - 1) }
{
    match term {
        Term::Literal(n) => n,
        Term::Times(n, level) => n.saturating_mul(loops.get(level as usize).copied().unwrap_or(0)),
    }
}

/// The sum of some terms; one above `u64::MAX` is kept as that.
fn sum(terms: &[Term], loops: &[u64]) -> u64
    ensures { result ≡ terms_value loops.now terms.now }
{
    let mut total = 0u64;
    'terms: for term in terms {
        total = total.saturating_add(value_of(*term, loops));
    }
    total
}

/// One sum less another, or `u64::MAX` where the first is that or less than the second.
fn difference(more: u64, less: u64) -> u64
    ensures { result ≡ less_value more less }
{
    if more == u64::MAX {
        return more;
    }
    more.checked_sub(less).unwrap_or(u64::MAX)
}

/// The value of a bound. One that is too large, or below 0, is `u64::MAX`, which no array has cells at.
fn bound(bound: &Bound, loops: &[u64]) -> u64
    ensures { result ≡ bound_value loops.now bound.now }
{
    difference(
        sum(bound.terms.as_slice(), loops),
        sum(bound.less.as_slice(), loops),
    )
}

/// The device that a directive works on.
pub fn device(text: DeviceText, loops: &[u64]) -> DeviceId
    ensures { result.number ≡ device_of loops.now text }
{
    match text {
        DeviceText::Fixed(device) => device,
        DeviceText::LoopName(level) => {
            let value = loops.get(level as usize).copied().unwrap_or(0);
            DeviceId {
                number: value.min(3) as u8,
            }
        }
    }
}

/// A section's cells. One that is written without bounds is the whole array.
pub fn section(text: &SectionText, lengths: &[u32], loops: &[u64]) -> Section
    ensures { result ≡ section_of lengths.now loops.now text.now }
{
    match &text.bounds {
        None => Section {
            array: text.array,
            first: 0,
            length: u64::from(lengths.get(text.array.0 as usize).copied().unwrap_or(0)),
        },
        Some((first, length)) => Section {
            array: text.array,
            first: bound(first, loops),
            length: bound(length, loops),
        },
    }
}
