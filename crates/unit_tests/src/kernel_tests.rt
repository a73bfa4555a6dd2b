// Loops that are done in blocks of turns, beside the same loops one operation after another.

use crate::sources::{Look, look_at};
use device::run_choices;
use lower::Image;
use std::alloc::{AllocError, Global};
use std::test::Fail;

// How many turns: none, few, about a block, and more than two.
const TURNS: [u64; 9] = [0, 1, 2, 63, 64, 511, 512, 513, 1100];

// What a turn does on the arrays A and B and the scalar s, and the same on C, D and t.
const BODIES: [(&str, &str); 49] = [
    ("A[i] = B[i] * 3 + (i ^ 5);", "C[i] = D[i] * 3 + (i ^ 5);"),
    ("A[i] = A[i - 1] + B[i];", "C[i] = C[i - 1] + D[i];"),
    ("A[i] = A[i + 1] + B[i];", "C[i] = C[i + 1] + D[i];"),
    (
        "A[i] = B[i]; B[i] = A[i - 1];",
        "C[i] = D[i]; D[i] = C[i - 1];",
    ),
    (
        "A[i] = B[(i * 7) % 1200] + B[1199 - i];",
        "C[i] = D[(i * 7) % 1200] + D[1199 - i];",
    ),
    (
        "uint64_t u = B[i] + 1; A[i] = u * u; B[i] = u;",
        "uint64_t u = D[i] + 1; C[i] = u * u; D[i] = u;",
    ),
    ("s = B[i] * 2; A[i] = s + i;", "t = D[i] * 2; C[i] = t + i;"),
    (
        "s = B[i]; A[i] = s; s = A[i] + i; B[i] = s;",
        "t = D[i]; C[i] = t; t = C[i] + i; D[i] = t;",
    ),
    ("A[i] = s; s = B[i];", "C[i] = t; t = D[i];"),
    ("s = s + B[i]; A[i] = s;", "t = t + D[i]; C[i] = t;"),
    (
        "A[i] = (B[i] > 50 && A[i] < 3) + !B[i];",
        "C[i] = (D[i] > 50 && C[i] < 3) + !D[i];",
    ),
    (
        "A[i] = (B[i] << 3) / 7 % 11 ^ ~(B[i] >> 2);",
        "C[i] = (D[i] << 3) / 7 % 11 ^ ~(D[i] >> 2);",
    ),
    (
        "A[i] = B[i] | 1; B[i] = A[i] - 2 + 4 * i;",
        "C[i] = D[i] | 1; D[i] = C[i] - 2 + 4 * i;",
    ),
    ("s = s + B[i];", "t = t + D[i];"),
    ("s = s - B[i] * i;", "t = t - D[i] * i;"),
    ("s = s < A[i];", "t = t < C[i];"),
    ("s = s ^ (B[i + 1] << 3);", "t = t ^ (D[i + 1] << 3);"),
    (
        "uint64_t u = B[i] * A[i]; A[i] = u; s = s * 3 + u;",
        "uint64_t u = D[i] * C[i]; C[i] = u; t = t * 3 + u;",
    ),
    (
        "uint64_t u = B[i] * A[i]; A[i] = u; s = s + u % 97;",
        "uint64_t u = D[i] * C[i]; C[i] = u; t = t + u % 97;",
    ),
    ("A[i] = B[i] + s; s = s + 1;", "C[i] = D[i] + t; t = t + 1;"),
    ("s = B[i]; s = s + A[i];", "t = D[i]; t = t + C[i];"),
    ("s = B[i] - s;", "t = D[i] - t;"),
    ("s = s + s;", "t = t + t;"),
    ("s = s + B[s % 1200];", "t = t + D[t % 1200];"),
    ("s = s | A[(i * 7) % 1200];", "t = t | C[(i * 7) % 1200];"),
    ("A[i + 99] = B[i] * 3;", "C[i + 99] = D[i] * 3;"),
    ("A[s % 50 + i] = B[i] + 1;", "C[t % 50 + i] = D[i] + 1;"),
    (
        "A[i + 7] = A[7 + i] + B[i]; B[7 + i] = A[i + 7] - i;",
        "C[i + 7] = C[7 + i] + D[i]; D[7 + i] = C[i + 7] - i;",
    ),
    (
        "A[i + 7] = B[i]; s = s + A[7 + i];",
        "C[i + 7] = D[i]; t = t + C[7 + i];",
    ),
    ("A[i + 7] = A[i] + B[i];", "C[i + 7] = C[i] + D[i];"),
    ("A[i + 7] = B[i]; B[i] = i;", "C[i + 7] = D[i]; D[i] = i;"),
    (
        "A[s % 50 + i] = B[i]; s = s ^ 1;",
        "C[t % 50 + i] = D[i]; t = t ^ 1;",
    ),
    (
        "if (A[i] < 3) { A[i] = A[i] + 1; } else { A[i] = 0; }",
        "if (C[i] < 3) { C[i] = C[i] + 1; } else { C[i] = 0; }",
    ),
    (
        "if (i % 3 == 0) { B[i] = A[i]; }",
        "if (i % 3 == 0) { D[i] = C[i]; }",
    ),
    (
        "if (i > 1) { B[i] = A[i - 1]; }",
        "if (i > 1) { D[i] = C[i - 1]; }",
    ),
    (
        "if (i < 3) { B[i] = A[i + 5]; } else { B[i] = A[i - 3] + 7; }",
        "if (i < 3) { D[i] = C[i + 5]; } else { D[i] = C[i - 3] + 7; }",
    ),
    (
        "if (A[i] > 1) { if (B[i] % 2) { A[i] = B[i]; } else { B[i] = i; } } else { A[i] = 9; B[i] = A[i] + i; }",
        "if (C[i] > 1) { if (D[i] % 2) { C[i] = D[i]; } else { D[i] = i; } } else { C[i] = 9; D[i] = C[i] + i; }",
    ),
    (
        "if (A[i] == 0) { B[i] = 1; } else { if (A[i] == 1) { B[i] = 2; } else { A[i] = B[i] + i; } }",
        "if (C[i] == 0) { D[i] = 1; } else { if (C[i] == 1) { D[i] = 2; } else { C[i] = D[i] + i; } }",
    ),
    (
        "uint64_t u = B[i]; if (u % 2) { u = u * 3 + 1; } A[i] = u;",
        "uint64_t u = D[i]; if (u % 2) { u = u * 3 + 1; } C[i] = u;",
    ),
    (
        "s = i; if (B[i] % 4 == 3) { s = A[i]; } else { s = s + 1; } A[i] = s;",
        "t = i; if (D[i] % 4 == 3) { t = C[i]; } else { t = t + 1; } C[i] = t;",
    ),
    (
        "if (A[i] && B[i] > 40) { A[i] = i; B[i] = A[i] + B[i]; } B[i] = B[i] + A[i];",
        "if (C[i] && D[i] > 40) { C[i] = i; D[i] = C[i] + D[i]; } D[i] = D[i] + C[i];",
    ),
    (
        "if (A[i] % 2) { A[i] = A[i] + 5; } s = s + A[i];",
        "if (C[i] % 2) { C[i] = C[i] + 5; } t = t + C[i];",
    ),
    ("if (A[i] % 2) { s = B[i]; }", "if (C[i] % 2) { t = D[i]; }"),
    (
        "if (B[i] > 900) { s = A[i]; B[i] = s; } A[i] = i;",
        "if (D[i] > 900) { t = C[i]; D[i] = t; } C[i] = i;",
    ),
    (
        "if (A[i] < 3) { A[i] = A[i - 1] + 1; }",
        "if (C[i] < 3) { C[i] = C[i - 1] + 1; }",
    ),
    (
        "if (A[i - 1] < 3) { A[i] = 2; } else { B[i] = A[i + 1]; }",
        "if (C[i - 1] < 3) { C[i] = 2; } else { D[i] = C[i + 1]; }",
    ),
    (
        "if (A[i] < 3) { A[i + 7] = B[i]; }",
        "if (C[i] < 3) { C[i + 7] = D[i]; }",
    ),
    (
        "if (B[i] & 4) { A[i + 7] = A[7 + i] * 2; } else { A[i + 7] = i; }",
        "if (D[i] & 4) { C[i + 7] = C[7 + i] * 2; } else { C[i + 7] = i; }",
    ),
    (
        "if (i > 1) { if (0) { A[i] = 1; } }",
        "if (i > 1) { if (0) { C[i] = 1; } }",
    ),
];

const HEAD: &str = "\
uint64_t A[1200];
uint64_t B[1200];
uint64_t C[1200];
uint64_t D[1200];
uint64_t s;
uint64_t t;
uint64_t n;
int main(void) {
for (uint64_t j = 0; j < 1200; j += 1) { A[j] = j % 5; B[j] = 3 * j + 7; C[j] = j % 5; D[j] = 3 * j + 7; }
s = 5;
t = 5;
#pragma omp taskwait
";

const TAIL: &str = "\
#pragma omp taskwait
for (uint64_t j = 0; j < 1200; j += 1) {
if (A[j] != C[j]) { n = n + 1; }
if (B[j] != D[j]) { n = n + 1; }
}
print(n);
print(s - t);
}
";

// A loop from 1 on.
fn add_loop(text: &mut String, turns: u64, body: &str) -> Result<(), AllocError> {
    text.push_str("for (uint64_t i = 1; i < ")?;
    write!(text, "{}", turns.saturating_add(1))?;
    text.push_str("; i += 1) { ")?;
    text.push_str(body)?;
    text.push_str(" }\n")?;
    Ok(())
}

// Where a loop stands: what comes before it and after it, beside the same for C, D and t.
const PLACES: [[(&str, &str); 2]; 6] = [
    [("", ""), ("", "")],
    [("{\n", "}\n"), ("{\n", "}\n")],
    [("if (1) {\n", "}\n"), ("if (1) {\n", "}\n")],
    [
        (
            "if (s > A[3] + 9 || !B[2]) {\ns = s + 1;\n} else {\n",
            "}\n",
        ),
        (
            "if (t > C[3] + 9 || !D[2]) {\nt = t + 1;\n} else {\n",
            "}\n",
        ),
    ],
    [
        (
            "for (uint64_t k = 0; k < 4; k += 1) {\ns = s + 1;\nif (k && (k << 1) / 3 % 4 < ~s) {\n",
            "}\nA[k] = s;\n}\n",
        ),
        (
            "for (uint64_t k = 0; k < 4; k += 1) {\nt = t + 1;\nif (k && (k << 1) / 3 % 4 < ~t) {\n",
            "}\nC[k] = t;\n}\n",
        ),
    ],
    [
        (
            "for (uint64_t k = 0; k < 3; k += 1) {\nif ((k + A[k + 1]) % 2 == 0) {\n",
            "} else {\nfor (uint64_t i = 1; i < 700; i += 1) { B[i] = A[i] + k; }\n}\n}\n",
        ),
        (
            "for (uint64_t k = 0; k < 3; k += 1) {\nif ((k + C[k + 1]) % 2 == 0) {\n",
            "} else {\nfor (uint64_t i = 1; i < 700; i += 1) { { D[i] = C[i] + k; } }\n}\n}\n",
        ),
    ],
];

// Both loops in a place, the second one with a body in braces, which is not done in blocks.
fn source(
    alloc: Global,
    place: &[(&str, &str); 2],
    turns: u64,
    body: &str,
    again: &str,
) -> Result<String, AllocError> {
    let [(before, after), (before_again, after_again)] = *place;
    let mut text = String::new(alloc);
    text.push_str(HEAD)?;
    text.push_str(before)?;
    add_loop(&mut text, turns, body)?;
    text.push_str(after)?;
    text.push_str("#pragma omp taskwait\n")?;
    text.push_str(before_again)?;
    let inner = format!(in alloc; "{{ {again} }}")?;
    add_loop(&mut text, turns, &inner)?;
    text.push_str(after_again)?;
    text.push_str(TAIL)?;
    Ok(text)
}

struct Prints<'a>(&'a [u8]);

impl Look for Prints<'_> {
    fn look(&self, alloc: Global, image: &Image<'_>) -> Result<bool, Fail> {
        let answer = run_choices(alloc, image, &[], &[], 16_384).map_err(Fail::new)?;
        Ok(answer.out.as_slice() == self.0)
    }
}

#[test]
fn blocks_do_what_their_turns_do(rt: HostRuntime) -> Result<(), Fail> {
    for (body, again) in BODIES {
        for turns in TURNS {
            let text = source(rt.alloc(), &PLACES[0], turns, body, again)?;
            assert!(rt; look_at(rt.alloc(), &text, &Prints(b"0\n0\n"))?);
        }
    }
    Ok(())
}

#[test]
fn blocks_stand_in_braces_and_branches(rt: HostRuntime) -> Result<(), Fail> {
    for place in &PLACES[1..] {
        for (body, again) in BODIES {
            for turns in [63, 64, 513] {
                let text = source(rt.alloc(), place, turns, body, again)?;
                assert!(rt; look_at(rt.alloc(), &text, &Prints(b"0\n0\n"))?);
            }
        }
    }
    Ok(())
}

// Two arrays in turn, and a loop in a branch of each turn. A program in another language wrote the same numbers.
const IN_TURN: &str = "\
uint64_t A[600];
uint64_t B[600];
int main(void) {
for (uint64_t i = 0; i < 600; i += 1) { A[i] = i; }
#pragma omp target map(tofrom: A) map(tofrom: B)
for (uint64_t k = 0; k < 7; k += 1) {
if (k % 2 == 0) {
for (uint64_t i = 0; i < 600; i += 1) { B[i] = A[i] * 3 + k; }
} else {
for (uint64_t i = 0; i < 600; i += 1) { A[i] = B[i] + 1; }
}
if (k > 4 && A[k] % 2) {
{ for (uint64_t i = 1; i < 600; i += 1) { B[i] = B[i] + A[i - 1]; } }
}
}
print(A[0]);
print(A[599]);
print(B[0]);
print(B[1]);
print(B[599]);
}
";

#[test]
fn arrays_take_turns_in_branches(rt: HostRuntime) -> Result<(), Fail> {
    assert!(rt; look_at(rt.alloc(), IN_TURN, &Prints(b"23\n16196\n75\n179\n64763\n"))?);
    Ok(())
}

// A target in each turn of a loop around it.
const INSIDE: &str = "\
uint64_t A[600];
int main(void) {
for (uint64_t k = 0; k < 3; k += 1) {
#pragma omp target map(tofrom: A)
for (uint64_t i = 0; i < 600; i += 1) { A[i] = A[i] * 2 + k + i; }
}
print(A[0]);
print(A[1]);
print(A[599]);
}
";

#[test]
fn a_block_knows_the_loops_around_it(rt: HostRuntime) -> Result<(), Fail> {
    assert!(rt; look_at(rt.alloc(), INSIDE, &Prints(b"4\n11\n4197\n"))?);
    Ok(())
}

// Loops in a loop, among other statements. A program in another language wrote the same numbers.
const AROUND: &str = "\
uint64_t A[600];
uint64_t B[600];
int main(void) {
#pragma omp target map(tofrom: A) map(tofrom: B)
{
uint64_t s = 2;
for (uint64_t k = 0; k < 3; k += 1) {
for (uint64_t i = 0; i < 600; i += 1) { B[i] = A[i] * s + i; }
for (uint64_t i = 1; i < 599; i += 1) { A[i] = B[i - 1] + B[i + 1]; }
s = s + 1;
}
A[0] = A[0] + s;
}
print(A[0]);
print(A[1]);
print(A[300]);
print(A[598]);
}
";

#[test]
fn blocks_stand_among_other_statements(rt: HostRuntime) -> Result<(), Fail> {
    assert!(rt; look_at(rt.alloc(), AROUND, &Prints(b"5\n114\n34200\n34628\n"))?);
    Ok(())
}

// A scalar that each turn makes of the one before, three times. A program in another language wrote the same numbers.
const SCRAMBLED: &str = "\
uint64_t A[600];
int main(void) {
#pragma omp target map(tofrom: A)
{
uint64_t s = 88172645463325252;
for (uint64_t i = 0; i < 600; i += 1) {
s = s ^ (s << 13); s = s ^ (s >> 7); s = s ^ (s << 17); A[i] = A[i] + (s >> 32);
}
}
print(A[0]);
print(A[300]);
print(A[599]);
}
";

#[test]
fn a_scalar_goes_from_turn_to_turn(rt: HostRuntime) -> Result<(), Fail> {
    assert!(rt;
        look_at(
            rt.alloc(),
            SCRAMBLED,
            &Prints(b"2036926837\n949248930\n319373591\n"),
        )?
    );
    Ok(())
}

// Rows of matrices. A program in another language wrote the same numbers.
const PRODUCT: &str = "\
uint64_t X[4096];
uint64_t Y[4096];
uint64_t Z[4096];
uint64_t t;
int main(void) {
for (uint64_t i = 0; i < 4096; i += 1) { X[i] = i * i + 1; Y[i] = 3 * i + 2; }
#pragma omp target map(to: X, Y) map(tofrom: Z)
for (uint64_t r = 0; r < 64; r += 1) {
for (uint64_t k = 0; k < 64; k += 1) {
for (uint64_t j = 0; j < 64; j += 1) { Z[r * 64 + j] = Z[r * 64 + j] + X[r * 64 + k] * Y[k * 64 + j]; }
}
}
for (uint64_t i = 0; i < 4096; i += 1) { t = t * 31 + Z[i]; }
print(Z[65]);
print(t);
}
";

#[test]
fn rows_of_matrices_are_stored(rt: HostRuntime) -> Result<(), Fail> {
    assert!(rt;
        look_at(
            rt.alloc(),
            PRODUCT,
            &Prints(b"4466613280\n5270181598917492736\n"),
        )?
    );
    Ok(())
}

// Operators with each kind of right operand: numbers, scalars, loops, cells, shifts and multiples, some of them on the
// left. A program in another language wrote the same numbers.
const OPERANDS: &str = "\
uint64_t A[64];
uint64_t B[64];
int main(void) {
#pragma omp target map(tofrom: A) map(tofrom: B)
for (uint64_t k = 0; k < 9; k += 1) {
uint64_t x = k * 3 + 1;
for (uint64_t i = 1; i < 60; i += 1) {
x = x + i * 7;
A[(i * 5 + k) % 64] = A[i % 16] + i;
x = x ^ x * 3;
x = B[(i + k) % 64] - x;
B[(x >> 3) % 64] = (B[i] << 2) + k;
x = x + (A[(i * 2) % 64] < A[x % 64]) * 11;
x = (x * 5 & 1023) - (k << 1) + (x * x >> 60);
A[x % 64] = x - i * 3 | (B[i + k % 4] ^ k);
if (i * 2 > x % 97) { x = 7 - A[k] * 2; }
}
B[k] = B[k] + x;
}
print(A[0]); print(A[17]); print(A[63]); print(B[0]); print(B[8]); print(B[40]);
}
";

#[test]
fn operators_take_their_operands_with_them(rt: HostRuntime) -> Result<(), Fail> {
    assert!(rt;
        look_at(
            rt.alloc(),
            OPERANDS,
            &Prints(
                b"18446744073709551615\n18446744073709467105\n12\n22292\n18446744073709551385\n8\n",
            ),
        )?
    );
    Ok(())
}

// As many loops as may stand in one another, each with a name in the innermost one's reach. A program in another language
// wrote the same numbers.
const DEEP: &str = "\
uint64_t A[4];
int main(void) {
#pragma omp target map(tofrom: A)
for (uint64_t l0 = 0; l0 < 1; l0 += 1) {
for (uint64_t l1 = 1; l1 < 2; l1 += 1) {
for (uint64_t l2 = 2; l2 < 3; l2 += 1) {
for (uint64_t l3 = 3; l3 < 4; l3 += 1) {
for (uint64_t l4 = 4; l4 < 5; l4 += 1) {
for (uint64_t l5 = 5; l5 < 6; l5 += 1) {
for (uint64_t l6 = 6; l6 < 7; l6 += 1) {
for (uint64_t l7 = 7; l7 < 8; l7 += 1) {
for (uint64_t l8 = 8; l8 < 9; l8 += 1) {
for (uint64_t l9 = 9; l9 < 10; l9 += 1) {
for (uint64_t l10 = 10; l10 < 11; l10 += 1) {
for (uint64_t l11 = 11; l11 < 13; l11 += 1) {
for (uint64_t l12 = 12; l12 < 14; l12 += 1) {
for (uint64_t l13 = 13; l13 < 15; l13 += 1) {
for (uint64_t l14 = 14; l14 < 16; l14 += 1) {
A[l14 - 14] = A[l14 - 14] * 3 + l0 + l11 * 5 + (l12 ^ A[1]) + l13 * l14;
}
}
}
}
}
}
}
}
}
}
}
}
}
}
}
print(A[0]);
print(A[1]);
}
";

#[test]
fn loops_stand_in_loops(rt: HostRuntime) -> Result<(), Fail> {
    assert!(rt; look_at(rt.alloc(), DEEP, &Prints(b"5702319\n5745779\n"))?);
    Ok(())
}
