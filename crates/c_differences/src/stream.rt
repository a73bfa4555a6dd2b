// The written tokens of a source, passed in the order of its tree.

use base::tree::{BinaryOp, DivideOp, Place, ShiftOp, UnaryOp};
use c_terminals::{Written, WrittenTerminal};
use c_tokens::Sign;
use directives::Word;

// What is looked for.
#[derive(Clone, Copy)]
enum Wanted {
    Number,
    Name,
    Main,
    Print,
    Sign(Sign),
}

impl Wanted {
    fn is(self, terminal: &WrittenTerminal<'_>) -> bool {
        match (self, terminal) {
            (Wanted::Number, WrittenTerminal::Number(_)) => true,
            (Wanted::Name, WrittenTerminal::Name(_)) => true,
            (Wanted::Main, WrittenTerminal::Word(Word::Main)) => true,
            (Wanted::Print, WrittenTerminal::Word(Word::Print)) => true,
            (Wanted::Sign(sign), WrittenTerminal::Sign(own)) => *own == sign,
            _ => false,
        }
    }
}

/// The tokens that are left.
#[derive(Clone, Copy)]
pub struct Stream<'a, 'w> {
    tokens: &'w [Written<'a>],
    // Where the last one stands that was passed.
    place: Place,
}

impl<'a, 'w> Stream<'a, 'w> {
    /// The tokens of the body of `main`.
    pub fn new(tokens: &'w [Written<'a>]) -> Stream<'a, 'w> {
        let mut stream = Stream {
            tokens,
            place: Place { line: 1, column: 1 },
        };
        stream.pass(Wanted::Main);
        stream
    }

    // Goes past the next token that is wanted, to where it stands. Between two that a tree has there are brackets, words
    // and directives alone.
    fn pass(&mut self, wanted: Wanted) -> Place {
        let tokens = self.tokens;
        'tokens: for (number, token) in tokens.iter().enumerate() {
            if wanted.is(&token.terminal) {
                self.tokens = tokens.get(number.saturating_add(1)..).unwrap_or(&[]);
                self.place = Place {
                    line: token.line,
                    column: token.column,
                };
                return self.place;
            }
        }
        self.place
    }

    pub fn number(&mut self) -> Place {
        self.pass(Wanted::Number)
    }

    pub fn name(&mut self) -> Place {
        self.pass(Wanted::Name)
    }

    /// Whether a subscript stands next.
    pub fn is_indexed(&self) -> bool {
        match self.tokens {
            [token, ..] => Wanted::Sign(Sign::OpenBracket).is(&token.terminal),
            [] => false,
        }
    }

    pub fn print(&mut self) -> Place {
        self.pass(Wanted::Print)
    }

    /// Goes past the sign of an assignment.
    pub fn assigns(&mut self) {
        self.pass(Wanted::Sign(Sign::Equal));
    }

    /// Goes past the brace with which a body begins.
    pub fn opens(&mut self) {
        self.pass(Wanted::Sign(Sign::OpenBrace));
    }

    /// Whether the name that stands next stands again before the next semicolon.
    pub fn stores_own(&self) -> bool {
        let mut first = None;
        'tokens: for token in self.tokens.iter() {
            match (&token.terminal, first) {
                (WrittenTerminal::Sign(Sign::Semicolon), _) => return false,
                (WrittenTerminal::Name(name), None) => first = Some(*name),
                (WrittenTerminal::Name(name), Some(own)) => {
                    if *name == own {
                        return true;
                    }
                }
                _ => {}
            }
        }
        false
    }

    /// Whether the statement that stands next is the last one of a body with an `else` behind it.
    pub fn has_else(&self) -> bool {
        let mut rest = self.tokens;
        'tokens: while let [token, behind @ ..] = rest {
            rest = behind;
            if Wanted::Sign(Sign::Semicolon).is(&token.terminal) {
                return is_before_else(behind);
            }
        }
        false
    }

    pub fn unary(&mut self, op: UnaryOp) -> Place {
        self.pass(Wanted::Sign(match op {
            UnaryOp::Not => Sign::Bang,
            UnaryOp::Complement => Sign::Tilde,
        }))
    }

    pub fn binary(&mut self, op: BinaryOp) -> Place {
        self.pass(Wanted::Sign(sign_of(op)))
    }

    pub fn and(&mut self) -> Place {
        self.pass(Wanted::Sign(Sign::AndAnd))
    }

    pub fn or(&mut self) -> Place {
        self.pass(Wanted::Sign(Sign::OrOr))
    }

    pub fn shift(&mut self, op: ShiftOp) -> Place {
        self.pass(Wanted::Sign(match op {
            ShiftOp::Left => Sign::ShiftLeft,
            ShiftOp::Right => Sign::ShiftRight,
        }))
    }

    pub fn divide(&mut self, op: DivideOp) -> Place {
        self.pass(Wanted::Sign(match op {
            DivideOp::Quotient => Sign::Slash,
            DivideOp::Remainder => Sign::Percent,
        }))
    }
}

fn is_before_else(tokens: &[Written<'_>]) -> bool {
    match tokens {
        [brace, word, ..] => match (&brace.terminal, &word.terminal) {
            (WrittenTerminal::Sign(Sign::CloseBrace), WrittenTerminal::Word(Word::Else)) => true,
            _ => false,
        },
        _ => false,
    }
}

fn sign_of(op: BinaryOp) -> Sign {
    match op {
        BinaryOp::BitOr => Sign::Bar,
        BinaryOp::BitXor => Sign::Caret,
        BinaryOp::BitAnd => Sign::Ampersand,
        BinaryOp::Equal => Sign::EqualEqual,
        BinaryOp::NotEqual => Sign::NotEqual,
        BinaryOp::Less => Sign::Less,
        BinaryOp::LessOrEqual => Sign::LessEqual,
        BinaryOp::Greater => Sign::Greater,
        BinaryOp::GreaterOrEqual => Sign::GreaterEqual,
        BinaryOp::Add => Sign::Plus,
        BinaryOp::Subtract => Sign::Minus,
        BinaryOp::Multiply => Sign::Star,
    }
}
