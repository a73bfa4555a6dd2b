//! The words behind which a clause's sections stand, and the number of a device.

use crate::fault::DirectiveFault;
use crate::known::{Act, Single};
use crate::lexeme::{Lexeme, same_lexeme};
use crate::line::Line;
use crate::tree::{self, DependType, DeviceClause, DirectiveKind, MapType, Modifier};
use base::fault::ReadCode;
use base::tree::DeviceId;
use c_tokens::Sign;

impl<'a, 'l> Line<'a, 'l> {
    ghost use Rattle.std.specs.Prelude.{◌≡◌, ◌∷◌, [], map, true, false, IfOk, IfSome, IfNone, OnOk};
    ghost use Rattle.c_tokens.specs.declared.kind.Sign.TheVariants as sign;
    ghost use Rattle.c_grammar.specs.Lexeme.{Worded};
    ghost use Rattle.c_grammar.specs.LineGrammar as grammar;
    ghost use Rattle.c_grammar.specs.LineRules.{AreModifiers, IsAmong};
    ghost use Rattle.c_grammar.specs.LineMachine.{LineStack, DependHead, DeviceNumber, MapHead, MotionHead, Name, is_map_type, w};
    ghost use Rattle.directives.specs.Kinds.{IsNoDependWord, IsNoMapWord, IsNoModifier, allows, seen_depend, seen_kind, seen_map, seen_modifier};
    ghost use Rattle.directives.specs.Cursor.{first_item, items};
    ghost use Rattle.directives.specs.Reading.{IsSpelled, Outcome, rest};
    ghost use Rattle.directives.specs.Trees.{device_mark, modifier_marks, modifiers_marks, present_marks, type_marks};

    /// The map type whose word stands next.
    #[tactic(auto, using(crate::proofs::Moves::word_is))]
    fn map_word(&self) -> Option<MapType>
        ensures some { IfSome result (λ t. (first_item self.now).terminal ≡ Worded (grammar.map_word (seen_map t))) }
        ensures none { IfNone result (IsNoMapWord (first_item self.now).terminal) }
    {
        if self.at_word(b"to".as_slice()) {
            return Some(MapType::To);
        }
        if self.at_word(b"from".as_slice()) {
            return Some(MapType::From);
        }
        if self.at_word(b"tofrom".as_slice()) {
            return Some(MapType::ToFrom);
        }
        if self.at_word(b"alloc".as_slice()) {
            return Some(MapType::Alloc);
        }
        if self.at_word(b"release".as_slice()) {
            return Some(MapType::Release);
        }
        if self.at_word(b"delete".as_slice()) {
            return Some(MapType::Delete);
        }
        None
    }

    /// The map type of the directive whose word stands next.
    #[tactic(auto, using(crate::proofs::Typing::no_type, crate::proofs::Typing::not_allowed))]
    fn allowed_word(&self, kind: DirectiveKind) -> Option<MapType>
        ensures some { IfSome result (λ t. (first_item self.now).terminal ≡ Worded (grammar.map_word (seen_map t))) }
        ensures allowed { IfSome result (λ t. allows (seen_kind kind) (seen_map t) ≡ true) }
        ensures none { IfNone result (is_map_type (grammar.map_types (seen_kind kind)) (first_item self.now).terminal ≡ false) }
    {
        match self.map_word() {
            Some(map_type) => {
                if kind.takes_type(map_type) {
                    return Some(map_type);
                }
                None
            }
            None => None,
        }
    }

    /// A map type of the directive and the colon behind it, where no modifier stands.
    pub fn map_type(&mut self, kind: DirectiveKind) -> Result<MapType, DirectiveFault>
        requires { IsNoModifier (seen_kind kind) (first_item self.old).terminal }
        ensures read { (s : LineStack) → Outcome result (rest self.old (MapHead (seen_kind kind) ∷ s))
            (rest self.new (Name grammar.Maps ∷ s)) }
        ensures tree { IfOk result (λ t. IsSpelled (type_marks (grammar.map_word (seen_map t)))
            (items self.old) (items self.new)) }
        ensures allowed { IfOk result (λ t. IsAmong (seen_map t) (grammar.map_types (seen_kind kind))) }
    {
        match self.allowed_word(kind) {
            Some(map_type) => {
                self.enter(Act::Plain)?;
                self.expect(Sign::Colon)?;
                Ok(map_type)
            }
            None => Err(DirectiveFault::Line(self.misfit(ReadCode::BadMapType))),
        }
    }

    /// The modifier whose word stands next, if the directive takes it.
    #[tactic(auto, using(crate::proofs::Moves::word_is))]
    fn modifier_word(&self, kind: DirectiveKind) -> Option<Modifier>
        ensures some { IfSome result (λ m. (first_item self.now).terminal ≡ Worded (grammar.modifier_word (seen_modifier m))) }
        ensures takes { IfSome result (λ m. grammar.takes_modifier (seen_kind kind) (seen_modifier m) ≡ true) }
        ensures none { IfNone result (IsNoModifier (seen_kind kind) (first_item self.now).terminal) }
    {
        if self.at_word(b"always".as_slice()) {
            return Some(Modifier::Always);
        }
        if kind.takes_present() && self.at_word(b"present".as_slice()) {
            return Some(Modifier::Present);
        }
        None
    }

    /// The modifier, whose word stands next, and the comma behind it.
    fn modifier(&mut self, kind: DirectiveKind, modifier: Modifier) -> Result<(), DirectiveFault>
        requires word { (first_item self.old).terminal ≡ Worded (grammar.modifier_word (seen_modifier modifier)) }
        requires takes { grammar.takes_modifier (seen_kind kind) (seen_modifier modifier) ≡ true }
        ensures read { (s : LineStack) → Outcome result (rest self.old (MapHead (seen_kind kind) ∷ s))
            (rest self.new (MapHead (seen_kind kind) ∷ s)) }
        ensures tree { OnOk result (IsSpelled (modifier_marks modifier) (items self.old) (items self.new)) }
    {
        self.enter(Act::Once(Single::Modified(modifier)))?;
        self.expect(Sign::Comma)
    }

    /// The modifiers before a map type, each with the comma behind it.
    pub fn modifiers(&mut self, kind: DirectiveKind) -> Result<Vec<Modifier>, DirectiveFault>
        ensures read { (s : LineStack) → Outcome result (rest self.old (MapHead (seen_kind kind) ∷ s))
            (rest self.new (MapHead (seen_kind kind) ∷ s)) }
        ensures tree { IfOk result (λ ms. IsSpelled (modifiers_marks ms.items) (items self.old) (items self.new)) }
        ensures takes { IfOk result (λ ms. AreModifiers (seen_kind kind) (map seen_modifier ms.items)) }
        ensures stops { OnOk result (IsNoModifier (seen_kind kind) (first_item self.new).terminal) }
    {
        let mut modifiers = Vec::new(self.alloc);
        'modifiers: while let Some(modifier) = self.modifier_word(kind) {
            self.modifier(kind, modifier)?;
            modifiers.push(modifier)?;
        }
        Ok(modifiers)
    }

    /// Whether `present` and a colon stand before the sections of a `to` or `from` clause, and goes past both. An array
    /// may be called `present`: its name is not followed by a colon.
    pub fn present(&mut self) -> bool
        ensures read { (s : LineStack) → rest self.old (MotionHead ∷ s) ≡ rest self.new (Name grammar.Maps ∷ s) }
        ensures tree { IsSpelled (present_marks result) (items self.old) (items self.new) }
    {
        if !self.at_word(b"present".as_slice()) {
            return false;
        }
        let mut ahead = self.lexemes;
        let next = ahead.next();
        if !same_lexeme(Lexeme::Sign(Sign::Colon), next.lexeme) {
            return false;
        }
        self.token = ahead.next();
        self.lexemes = ahead;
        true
    }

    /// A device: its number, or the name of a loop.
    pub fn device(&mut self) -> Result<DeviceClause<'a>, DirectiveFault>
        ensures read { (s : LineStack) → Outcome result (rest self.old (DeviceNumber ∷ s)) (rest self.new s) }
        ensures tree { IfOk result (λ d. IsSpelled (device_mark d ∷ []) (items self.old) (items self.new)) }
    {
        match self.peek() {
            Lexeme::Number(number) => {
                self.enter(Act::Numbers)?;
                Ok(DeviceClause::Fixed(DeviceId {
                    number: number as u8,
                }))
            }
            Lexeme::Name(text) => {
                let column = self.token.column;
                self.enter(Act::Times)?;
                Ok(DeviceClause::Looped(tree::Name { text, column }))
            }
            Lexeme::BadNumber => Err(DirectiveFault::Line(self.fault(ReadCode::BadNumber))),
            _ => Err(DirectiveFault::Line(self.misfit(ReadCode::BadDevice))),
        }
    }

    /// The depend type whose word stands next.
    #[tactic(auto, using(crate::proofs::Moves::word_is))]
    fn depend_word(&self) -> Option<DependType>
        ensures some { IfSome result (λ t. (first_item self.now).terminal ≡ Worded (grammar.depend_word (seen_depend t))) }
        ensures none { IfNone result (IsNoDependWord (first_item self.now).terminal) }
    {
        if self.at_word(b"in".as_slice()) {
            return Some(DependType::In);
        }
        if self.at_word(b"out".as_slice()) {
            return Some(DependType::Out);
        }
        if self.at_word(b"inout".as_slice()) {
            return Some(DependType::InOut);
        }
        None
    }

    /// A depend type and the colon behind it.
    pub fn depend_type(&mut self) -> Result<DependType, DirectiveFault>
        ensures read { (s : LineStack) → Outcome result (rest self.old (DependHead ∷ w sign.Colon ∷ s))
            (rest self.new s) }
        ensures tree { IfOk result (λ t. IsSpelled (type_marks (grammar.depend_word (seen_depend t)))
            (items self.old) (items self.new)) }
    {
        match self.depend_word() {
            Some(depend_type) => {
                self.enter(Act::Plain)?;
                self.expect(Sign::Colon)?;
                Ok(depend_type)
            }
            None => Err(DirectiveFault::Line(self.misfit(ReadCode::Unexpected))),
        }
    }
}
