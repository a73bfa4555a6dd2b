// The third pass: the items one after the other, and the conflicts of items of which neither is before the other.

ghost use Rattle.std.specs.Prelude.{◌≡◌, ◌≤◌, IfOk, OnOk, length};
ghost use Rattle.base.specs.Items.{plan};
ghost use Rattle.base.specs.Limits.{most_items};
ghost use Rattle.mapcheck.specs.Third.{AreFirstRows, AreOfFirst, IsJudged, NoneAlone};
ghost use Rattle.mapcheck.specs.Unordered.{IsConflictIn};
ghost use Rattle.mapwalk.specs.Footprints.{AreFootprints};
ghost use Rattle.mapwalk.specs.Found.{all_found};
ghost use Rattle.mapwalk.specs.Walk.{AreActs, AreCurrent, HasNoRangeFault, IsFirstRefusal, IsSound};
ghost use Rattle.order.specs.Built.{HasNoClash};

use crate::accesses::Accesses;
use crate::unordered::first_conflict;
use base::fault::Refusal;
use mapwalk::{Acts, Footprints, Walked};
use order::Order;
use outline::Outlined;
use std::alloc::{AllocError, Global};

// The accesses of the items that are not refused by themselves.
fn accesses_of<'f>(
    alloc: Global,
    outlined: &Outlined<'_>,
    acts: &[Vec<Acts>],
    found: &'f Footprints,
) -> Result<Vec<Accesses<'f>>, AllocError>
    requires fine { HasNoRangeFault (plan outlined.now) }
    requires found { AreFootprints (plan outlined.now) (all_found found.now) }
    requires rows { AreFirstRows (plan outlined.now) acts.now }
    requires alone { NoneAlone (plan outlined.now) (length acts.now) }
    ensures accesses { IfOk result (λ list. AreOfFirst (plan outlined.now) (length acts.now) list.items) }
    ensures few { OnOk result (length acts.now ≤ most_items) }
{
    let items = outlined.items();
    let mut list = Vec::new(alloc);
    'rows: for (number, row) in acts.iter().enumerate() {
        list.push(Accesses::of_item(alloc, &items[number], row, found.get(number))?)?;
    }
    Ok(list)
}

// The first conflict of the items that are not refused by themselves, or want of memory.
fn conflict_among(
    alloc: Global,
    outlined: &Outlined<'_>,
    acts: &[Vec<Acts>],
    found: &Footprints,
    order: &Order<'_>,
) -> Result<Option<Refusal>, AllocError>
    requires order { order.now ≡ outlined.now }
    requires fine { HasNoRangeFault (plan outlined.now) }
    requires found { AreFootprints (plan outlined.now) (all_found found.now) }
    requires rows { AreFirstRows (plan outlined.now) acts.now }
    requires alone { NoneAlone (plan outlined.now) (length acts.now) }
    ensures { IfOk result (IsConflictIn (plan outlined.now) (length acts.now)) }
{
    let accesses = accesses_of(alloc, outlined, acts, found)?;
    first_conflict(alloc, order, &accesses)
}

/// The first refusal of the third pass, by an item alone or for a conflict with an earlier item; none where the program is
/// accepted, and then the walk has the arrays marked current. The error comes where an allocation fails.
pub fn third_pass(
    alloc: Global,
    outlined: &Outlined<'_>,
    found: &Footprints,
    order: &Order<'_>,
    walked: &Walked,
) -> Result<Option<Refusal>, AllocError>
    requires order { order.now ≡ outlined.now }
    requires fine { HasNoRangeFault (plan outlined.now) }
    requires clashes { HasNoClash (plan outlined.now) }
    requires found { AreFootprints (plan outlined.now) (all_found found.now) }
    requires acts { AreActs (plan outlined.now) walked.now }
    requires first { IsFirstRefusal (plan outlined.now) walked.now.fault }
    requires sound { IsSound (plan outlined.now) walked.now.fault }
    requires current { AreCurrent (plan outlined.now) walked.now }
    ensures { IfOk result (IsJudged (plan outlined.now) walked.now.current.items) }
{
    match conflict_among(alloc, outlined, &walked.acts, found, order)? {
        Some(refusal) => Ok(Some(refusal)),
        None => Ok(walked.fault),
    }
}
