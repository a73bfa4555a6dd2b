// Where blocks and runs of statements end.

use crate::source::{is_before, text_of};
use base::tree::Place;
use c_tokens::{Kind, Token, Tokens};

// How many braces and brackets are open.
#[derive(Clone, Copy)]
struct Open {
    braces: usize,
    brackets: usize,
}

impl Open {
    fn take(&mut self, text: &str) {
        if text == "{" {
            self.braces = self.braces.saturating_add(1);
        } else if text == "}" {
            self.braces = self.braces.saturating_sub(1);
        } else if text == "(" {
            self.brackets = self.brackets.saturating_add(1);
        } else if text == ")" {
            self.brackets = self.brackets.saturating_sub(1);
        }
    }

    // Whether a statement, or a body in braces, ends with this token, which was taken.
    fn ends(&self, text: &str) -> bool {
        self.braces == 0 && self.brackets == 0 && (text == "}" || text == ";")
    }
}

fn place_of(token: &Token) -> Place {
    Place {
        line: token.line,
        column: token.column,
    }
}

/// Where the brace stands that ends the block or loop behind a directive; none where it has no braces.
pub fn block_end(bytes: &[u8], directive: Place) -> Option<Place> {
    let mut open = Open {
        braces: 0,
        brackets: 0,
    };
    'tokens: for token in Tokens::new(bytes) {
        if token.line > directive.line {
            let text = text_of(bytes, &token);
            open.take(text);
            if open.ends(text) {
                return if text == "}" {
                    Some(place_of(&token))
                } else {
                    None
                };
            }
        }
    }
    None
}

/// Where the statements end that begin at a place, up to the next directive or the end of the block around them.
pub fn statements_end(bytes: &[u8], first: Place) -> Place {
    let mut open = Open {
        braces: 0,
        brackets: 0,
    };
    let mut end = first;
    'tokens: for token in Tokens::new(bytes) {
        if !is_before(&token, first) {
            let text = text_of(bytes, &token);
            if matches!(token.kind, Kind::Line) || (text == "}" && open.braces == 0) {
                return end;
            }
            open.take(text);
            if open.ends(text) {
                end = place_of(&token);
            }
        }
    }
    end
}
