// A single action on the memories.

ghost use Rattle.std.specs.Prelude.{◌≡◌, IfErr, IfOk, OnErr, OnOk, Bool, true, [], ◌∷◌, if◌then◌else◌};
ghost use Rattle.host_memory.specs.Arrays.{lengths_of, memory_of};
ghost use Rattle.base.specs.Memory.{is_cell, same_cell};
ghost use Rattle.host_memory.specs.declared.memory.Memory.{Memory as Arrays};
ghost use Rattle.present.specs.Blocks.{IsSection};
ghost use Rattle.present.specs.Table.{CountFits, HasRoom, IsAbsent, IsKept, IsUnchanged};
ghost use Rattle.actions.specs.Acting.{Acts, CountsOn, FitsIn, InHost, IsActFault, IsDone, IsRefused, alone, decides, gives};
ghost use Rattle.actions.specs.Strand.{HasSection, side_of};
ghost use Rattle.actions.specs.declared.action.Action.TheVariants as action;
ghost use Rattle.fine_machine.specs.Left as left;

use crate::action::{Action, Given};
use base::fault::RunFault;
use base::item::{Cell, MapItem, Section};
use base::tree::CombineOp;
use host_memory::Memory;
use operators::of_combined;
use present::Table;

// The answer that is a number, 0 where nothing was loaded.
fn gives(number: u64) -> Given
    ensures { result ≡ gives number }
{
    Given {
        number,
        copies: false,
        removes: false,
    }
}

// The answer of an entry or an exit.
fn decides(copies: bool, removes: bool) -> Given
    ensures { result ≡ decides copies removes }
{
    Given {
        number: 0,
        copies,
        removes,
    }
}

// Whether a cell lies in its array.
fn has_cell(host: &Memory, cell: Cell) -> bool
    ensures { result ≡ is_cell (lengths_of host.now) cell }
{
    cell.index < host.length(cell.array)
}

// A cell as a section.
fn alone(cell: Cell) -> Section
    ensures { result ≡ alone cell }
{
    Section {
        array: cell.array,
        first: cell.index,
        length: 1,
    }
}

// The number of a cell, 0 where the memory does not have it.
pub fn number_of(host: &Memory, cell: Cell) -> u64
    ensures { result ≡ memory_of host.now cell }
{
    if !has_cell(host, cell) {
        return 0;
    }
    host.section(&alone(cell))[0]
}

// A cell takes a number.
fn set_number(host: &mut Memory, cell: Cell, number: u64)
    requires { is_cell (lengths_of host.old) cell ≡ true }
    ensures set { memory_of host.new ≡ (λ d. if same_cell cell d then number else memory_of host.old d) }
    ensures lengths { lengths_of host.new ≡ lengths_of host.old }
{
    host.set_section(&alone(cell), &[number]);
}

// The number of a cell, on the host or on the device.
fn load(table: &Table, host: &Memory, on_host: bool, cell: Cell) -> Result<Given, RunFault>
    ensures done { IfOk result (λ r. IsDone (left.Load (side_of on_host) cell) r
        table.now host.now table.now host.now) }
    ensures fault { IfErr result (IsAbsent (IsRefused (left.Load (side_of on_host) cell) table.now host.now)) }
{
    if !on_host {
        return match table.load(cell) {
            None => Err(RunFault::Absent),
            Some(number) => Ok(gives(number)),
        };
    }
    if has_cell(host, cell) {
        Ok(gives(number_of(host, cell)))
    } else {
        Err(RunFault::Absent)
    }
}

// A cell takes a number, on the host or on the device.
fn store(
    table: &mut Table,
    host: &mut Memory,
    on_host: bool,
    cell: Cell,
    number: u64,
) -> Result<Given, RunFault>
    ensures done { IfOk result (λ r. IsDone (left.Store (side_of on_host) cell number) r
        table.old host.old table.new host.new) }
    ensures fault { IfErr result (IsAbsent (IsRefused (left.Store (side_of on_host) cell number) table.old host.old)) }
    ensures unchanged { OnErr result (IsUnchanged table.old table.new × (host.new ≡ host.old)) }
    ensures lengths { lengths_of host.new ≡ lengths_of host.old }
    ensures kept { IsKept table.old table.new }
{
    if !on_host {
        return if table.store(cell, number) {
            Ok(gives(0))
        } else {
            Err(RunFault::Absent)
        };
    }
    if !has_cell(host, cell) {
        return Err(RunFault::Absent);
    }
    set_number(host, cell, number);
    Ok(gives(0))
}

// A cell takes what an update makes of its number and another, on the host or on the device.
fn combine(
    table: &mut Table,
    host: &mut Memory,
    on_host: bool,
    op: CombineOp,
    cell: Cell,
    number: u64,
) -> Result<Given, RunFault>
    ensures done { IfOk result (λ r. IsDone (left.Combine (side_of on_host) op cell number) r
        table.old host.old table.new host.new) }
    ensures fault { IfErr result (IsAbsent (IsRefused (left.Combine (side_of on_host) op cell number) table.old host.old)) }
    ensures unchanged { OnErr result (IsUnchanged table.old table.new × (host.new ≡ host.old)) }
    ensures lengths { lengths_of host.new ≡ lengths_of host.old }
    ensures kept { IsKept table.old table.new }
{
    let old = load(table, host, on_host, cell)?;
    store(
        table,
        host,
        on_host,
        cell,
        of_combined(op, old.number, number),
    )
}

// The creation and the count of an entry.
fn enter(table: &mut Table, item: &MapItem) -> Result<Given, RunFault>
    requires section { IsSection item.now.section }
    requires count { CountFits table.old 1 item.now.section }
    ensures done { IfOk result (λ r. (h : Arrays) → IsDone (left.Enter item.now) r table.old h table.new h) }
    ensures room { OnOk result (HasRoom table.old (item.now ∷ [])) }
    ensures fault { IfErr result (λ f. (s : Bool) (h : Arrays) → IsActFault s (action.Enter item.now) table.old h f) }
    ensures unchanged { OnErr result (IsUnchanged table.old table.new) }
    ensures kept { IsKept table.old table.new }
{
    match table.count_in(item) {
        Err(fault) => Err(fault),
        Ok(copies) => Ok(decides(copies, false)),
    }
}

// The count of an exit.
fn leave(table: &mut Table, item: &MapItem) -> Result<Given, RunFault>
    requires { IsSection item.now.section }
    ensures done { IfOk result (λ r. (h : Arrays) → IsDone (left.Leave item.now) r table.old h table.new h) }
    ensures fault { IfErr result (λ f. (s : Bool) (h : Arrays) → IsActFault s (action.Leave item.now) table.old h f) }
    ensures unchanged { OnErr result (IsUnchanged table.old table.new) }
    ensures kept { IsKept table.old table.new }
{
    match table.count_out(item) {
        Err(fault) => Err(fault),
        Ok((copies, removes)) => Ok(decides(copies, removes)),
    }
}

// The block that contains the section loses its storage.
fn remove(table: &mut Table, section: &Section) -> Given
    requires { IsSection section.now }
    ensures done { (h : Arrays) → IsDone (left.Remove section.now) result table.old h table.new h }
    ensures kept { IsKept table.old table.new }
{
    table.remove(section);
    gives(0)
}

// A cell of the device takes the number that it has on the host.
fn copy_in(table: &mut Table, host: &Memory, cell: Cell) -> Result<Given, RunFault>
    ensures done { IfOk result (λ r. IsDone (left.CopyIn cell) r table.old host.now table.new host.now) }
    ensures fault { IfErr result (IsAbsent (IsRefused (left.CopyIn cell) table.old host.now)) }
    ensures unchanged { OnErr result (IsUnchanged table.old table.new) }
    ensures kept { IsKept table.old table.new }
{
    if table.store(cell, number_of(host, cell)) {
        Ok(gives(0))
    } else {
        Err(RunFault::Absent)
    }
}

// A cell of the host takes the number that it has on the device.
fn copy_out(table: &Table, host: &mut Memory, cell: Cell) -> Result<Given, RunFault>
    requires { is_cell (lengths_of host.old) cell ≡ true }
    ensures done { IfOk result (λ r. IsDone (left.CopyOut cell) r table.now host.old table.now host.new) }
    ensures fault { IfErr result (IsAbsent (IsRefused (left.CopyOut cell) table.now host.old)) }
    ensures unchanged { OnErr result (host.new ≡ host.old) }
    ensures lengths { lengths_of host.new ≡ lengths_of host.old }
{
    match table.load(cell) {
        None => Err(RunFault::Absent),
        Some(number) => {
            set_number(host, cell, number);
            Ok(gives(0))
        }
    }
}

/// Does an action of an item that works on the host, or on the device of this table. The error is `DeviceFull` where an
/// entry would create more cells than there is room for, `Absent` where a cell is not there, a section overlaps a block
/// in part, or an entry's is to be present and is absent, or `OutOfMemory`, of an entry alone.
pub fn act(
    table: &mut Table,
    host: &mut Memory,
    on_host: bool,
    action: Action,
) -> Result<Given, RunFault>
    requires section { HasSection action }
    requires count { CountsOn action table.old }
    requires in_host { InHost action host.old }
    ensures done { IfOk result (λ r. Acts on_host action r table.old host.old table.new host.new) }
    ensures room { OnOk result (FitsIn action table.old) }
    ensures fault { IfErr result (IsActFault on_host action table.old host.old) }
    ensures unchanged { OnErr result (IsUnchanged table.old table.new × (host.new ≡ host.old)) }
    ensures lengths { lengths_of host.new ≡ lengths_of host.old }
    ensures kept { IsKept table.old table.new }
{
    match action {
        Action::Load(cell) => load(table, host, on_host, cell),
        Action::Store(cell, number) => store(table, host, on_host, cell, number),
        Action::Combine(op, cell, number) => combine(table, host, on_host, op, cell, number),
        Action::Enter(item) => enter(table, &item),
        Action::Leave(item) => leave(table, &item),
        Action::Remove(section) => Ok(remove(table, &section)),
        Action::CopyIn(cell) => copy_in(table, host, cell),
        Action::CopyOut(cell) => copy_out(table, host, cell),
    }
}
