//! The order of codes.

ghost use Rattle.std.specs.Prelude.{◌≡◌};
ghost use Rattle.c_grammar.specs.Code.{code_number, lower_code};

use base::fault::ReadCode;

/// The number of a code in their order.
fn code_number(code: ReadCode) -> u8
    ensures { result ≡ code_number code }
{
    match code {
        ReadCode::UnknownByte => 0,
        ReadCode::Unexpected => 1,
        ReadCode::Undeclared => 2,
        ReadCode::AlreadyDeclared => 3,
        ReadCode::BadNumber => 4,
        ReadCode::BadLength => 5,
        ReadCode::LoopNameAssigned => 6,
        ReadCode::BadOperand => 7,
        ReadCode::TooDeep => 8,
        ReadCode::TooMany => 9,
        ReadCode::UnknownDirective => 10,
        ReadCode::UnknownClause => 11,
        ReadCode::ClauseCount => 12,
        ReadCode::BadMapType => 13,
        ReadCode::BadBound => 14,
        ReadCode::ArrayTwice => 15,
        ReadCode::DirectiveInTarget => 16,
        ReadCode::OuterAssigned => 17,
        ReadCode::HostOnly => 18,
        ReadCode::NoBody => 19,
        ReadCode::DirectiveUnderIf => 20,
        ReadCode::BadDevice => 21,
    }
}

/// The lower of two codes.
pub fn lower(own: Option<ReadCode>, code: ReadCode) -> ReadCode
    ensures { result ≡ lower_code own code }
{
    match own {
        None => code,
        Some(own) => {
            if code_number(own) <= code_number(code) {
                own
            } else {
                code
            }
        }
    }
}
