// The map and depend items of a directive.

ghost use Rattle.std.specs.Prelude.{◌≡◌, IfOk, map};
ghost use Rattle.base.specs.Items.{depend_of, depends_of, enter_kind, exit_kind, item_of, map_of, region_kind, update_kind, update_of};

use crate::bounds::section;
use base::item::{Depend, MapItem, MapKind};
use base::tree::{
    DependText, EnterKind, ExitKind, MapText, RegionKind, SectionText, UpdateKind, UpdateText,
};
use smallvec::SmallVec;
use std::alloc::{AllocError, Global};

fn of_region(kind: RegionKind) -> MapKind
    ensures { result ≡ region_kind kind }
{
    match kind {
        RegionKind::To => MapKind::To,
        RegionKind::From => MapKind::From,
        RegionKind::ToFrom => MapKind::ToFrom,
        RegionKind::Alloc => MapKind::Alloc,
    }
}

fn of_enter(kind: EnterKind) -> MapKind
    ensures { result ≡ enter_kind kind }
{
    match kind {
        EnterKind::To => MapKind::To,
        EnterKind::Alloc => MapKind::Alloc,
    }
}

fn of_exit(kind: ExitKind) -> MapKind
    ensures { result ≡ exit_kind kind }
{
    match kind {
        ExitKind::From => MapKind::From,
        ExitKind::Release => MapKind::Release,
        ExitKind::Delete => MapKind::Delete,
    }
}

fn of_update(kind: UpdateKind) -> MapKind
    ensures { result ≡ update_kind kind }
{
    match kind {
        UpdateKind::To => MapKind::To,
        UpdateKind::From => MapKind::From,
    }
}

fn map_item(
    kind: MapKind,
    always: bool,
    present: bool,
    text: &SectionText,
    lengths: &[u32],
    loops: &[u64],
) -> MapItem
    ensures { result ≡ item_of lengths.now loops.now kind always present text.now }
{
    MapItem {
        kind,
        always,
        present,
        section: section(text, lengths, loops),
        line: text.place.line,
        column: text.place.column,
    }
}

/// The map items of a `target` or a `target data`.
pub fn region_maps(
    alloc: Global,
    texts: &[MapText<RegionKind>],
    lengths: &[u32],
    loops: &[u64],
) -> Result<SmallVec<MapItem, 2>, AllocError>
    ensures { IfOk result (λ maps. maps.items ≡ map (map_of region_kind lengths.now loops.now) texts.now) }
{
    let mut maps = SmallVec::new(alloc);
    'texts: for text in texts {
        let kind = of_region(text.kind);
        maps.push(map_item(
            kind,
            text.always,
            text.present,
            &text.section,
            lengths,
            loops,
        ))?;
    }
    Ok(maps)
}

/// The map items of a `target enter data`.
pub fn enter_maps(
    alloc: Global,
    texts: &[MapText<EnterKind>],
    lengths: &[u32],
    loops: &[u64],
) -> Result<SmallVec<MapItem, 2>, AllocError>
    ensures { IfOk result (λ maps. maps.items ≡ map (map_of enter_kind lengths.now loops.now) texts.now) }
{
    let mut maps = SmallVec::new(alloc);
    'texts: for text in texts {
        let kind = of_enter(text.kind);
        maps.push(map_item(
            kind,
            text.always,
            text.present,
            &text.section,
            lengths,
            loops,
        ))?;
    }
    Ok(maps)
}

/// The map items of a `target exit data`.
pub fn exit_maps(
    alloc: Global,
    texts: &[MapText<ExitKind>],
    lengths: &[u32],
    loops: &[u64],
) -> Result<SmallVec<MapItem, 2>, AllocError>
    ensures { IfOk result (λ maps. maps.items ≡ map (map_of exit_kind lengths.now loops.now) texts.now) }
{
    let mut maps = SmallVec::new(alloc);
    'texts: for text in texts {
        let kind = of_exit(text.kind);
        maps.push(map_item(
            kind,
            text.always,
            text.present,
            &text.section,
            lengths,
            loops,
        ))?;
    }
    Ok(maps)
}

/// The sections of a `target update`.
pub fn update_maps(
    alloc: Global,
    texts: &[UpdateText],
    lengths: &[u32],
    loops: &[u64],
) -> Result<SmallVec<MapItem, 2>, AllocError>
    ensures { IfOk result (λ maps. maps.items ≡ map (update_of lengths.now loops.now) texts.now) }
{
    let mut maps = SmallVec::new(alloc);
    'texts: for text in texts {
        let kind = of_update(text.kind);
        maps.push(map_item(kind, false, text.present, &text.section, lengths, loops))?;
    }
    Ok(maps)
}

fn depend_item(text: &DependText, lengths: &[u32], loops: &[u64]) -> Depend
    ensures { result ≡ depend_of lengths.now loops.now text.now }
{
    Depend {
        kind: text.kind,
        section: section(&text.section, lengths, loops),
        line: text.section.place.line,
        column: text.section.place.column,
    }
}

/// The depend items of a directive.
pub fn depend_items(
    alloc: Global,
    texts: &[DependText],
    lengths: &[u32],
    loops: &[u64],
) -> Result<SmallVec<Depend, 2>, AllocError>
    ensures { IfOk result (λ depends. depends.items ≡ depends_of lengths.now loops.now texts.now) }
{
    let mut depends = SmallVec::new(alloc);
    'texts: for text in texts {
        depends.push(depend_item(text, lengths, loops))?;
    }
    Ok(depends)
}
