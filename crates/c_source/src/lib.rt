//! The tokens of a source, its first fault, and the tree that it spells.
#![tactic(auto)]

ghost use Rattle.c_source.specs.Claims.{FaultIsFirst, FaultyTextIsNotSpelled, OneText, TextExists, TextIsSpelled};

/// Of every source: the fault that is answered is the first, and has the lowest code there.
pub fn fault_is_first()
    ensures { FaultIsFirst }
{}

/// Of every source: where no fault is answered, the tree whose tokens they are keeps all rules.
pub fn text_is_spelled()
    ensures { TextIsSpelled }
{}

/// Of every source: where no fault is answered, it spells a tree.
pub fn text_exists()
    ensures { TextExists }
{}

/// Of every source: where a fault is answered, it spells no tree that keeps the rules.
pub fn faulty_text_is_not_spelled()
    ensures { FaultyTextIsNotSpelled }
{}

/// Of every source: it spells at most one tree.
pub fn one_text()
    ensures { OneText }
{}
