use c_terminals::{Written, WrittenTerminal};
use c_written::written;
use directives::Lexeme;
use std::alloc::Global;

fn is_same_line(
    left: &[directives::PlacedLexeme<'_>],
    right: &[directives::PlacedLexeme<'_>],
) -> bool {
    if left.len() != right.len() {
        return false;
    }
    for k in 0..left.len() {
        let same = match (left[k].lexeme, right[k].lexeme) {
            (Lexeme::Number(n), Lexeme::Number(m)) => n == m,
            (a, b) => directives::same_lexeme(a, b),
        };
        if !same {
            return false;
        }
    }
    true
}

fn is_same(left: &Written<'_>, right: &Written<'_>) -> bool {
    match (&left.terminal, &right.terminal) {
        (WrittenTerminal::Word(v), WrittenTerminal::Word(w)) => v.number() == w.number(),
        (WrittenTerminal::Sign(r), WrittenTerminal::Sign(s)) => *r == *s,
        (WrittenTerminal::Name(x), WrittenTerminal::Name(y)) => x == y,
        (WrittenTerminal::Number(n), WrittenTerminal::Number(m)) => *n == *m,
        (WrittenTerminal::BadNumber, WrittenTerminal::BadNumber) => true,
        (WrittenTerminal::Line(l), WrittenTerminal::Line(m)) => is_same_line(
            l.tokens(),
            m.tokens(),
        ),
        (WrittenTerminal::Unworked, WrittenTerminal::Unworked) => true,
        _ => false,
    }
}

fn is_spelled(alloc: Global, short: &str, long: &str) -> bool {
    match (
        written(alloc, short.as_bytes()),
        written(alloc, long.as_bytes()),
    ) {
        (Ok(left), Ok(right)) => {
            if left.len() != right.len() {
                return false;
            }
            for k in 0..left.len() {
                if !is_same(&left[k], &right[k]) {
                    return false;
                }
            }
            true
        }
        _ => false,
    }
}

#[test]
fn forms(rt: HostRuntime) {
    let alloc = rt.alloc();
    for (short, long) in [
        ("x += a - b;", "x = x + (a - b);"),
        (
            "int main() { if (1) if (2) print(3); else print(4); for (uint64_t i = 0; i <= 2; i++) print(i); }",
            "int main(void) { if (1) { if (2) { print(3); } else { print(4); } } for (uint64_t i = 0; i < 3; i += 1) { print(i); } }",
        ),
        (
            "int main() { if (1) { } else if (2) print(3); else if (4) { } else print(5); print(6); }",
            "int main(void) { if (1) { } else { if (2) { print(3); } else { if (4) { } else { print(5); } } } print(6); }",
        ),
        (
            "int main() { printf(\"%lu\\n\", 1); if (1) printf(\"%llu\\n\", 2); else printf ( \"%\" PRIu64 \"\\n\" , (3)); }",
            "int main(void) { print(1); if (1) { print(2); } else { print((3)); } }",
        ),
        (
            "enum { N = 2 }; unsigned long A[N + 1], x; int main() { x = x % (N << 3) + N; }",
            "uint64_t A[3]; uint64_t x; int main(void) { x = x % 16 + 2; }",
        ),
        (
            "int main() { uint64_t x = 1; x += 2; x -= x * 2; x <<= 3; x /= 2 + 3; x++; --x; return 0; }",
            "int main(void) { uint64_t x = 1; x = x + (2); x = x - (x * 2); x = x << 3; x = x / 5; x = x + 1; x = x - 1; }",
        ),
        (
            "uint64_t A[4]; int main(void) { A[1]++; ++A[2]; A[A[0] & 1] |= 3 + 4; for (uint64_t i = 0; i <= 3; ++i) A[i] *= i; for (uint64_t i = 0; i < 4; i++) { } }",
            "uint64_t A[4]; int main(void) { A[1] = A[1] + 1; A[2] = A[2] + 1; A[A[0] & 1] = A[A[0] & 1] | (3 + 4); for (uint64_t i = 0; i < 4; i += 1) { A[i] = A[i] * (i); } for (uint64_t i = 0; i < 4; i += 1) { } }",
        ),
        (
            "const size_t N = 3; enum { M = N + 1, K = M << 1 }; unsigned long long A[K]; int main(void) { A[N] = M; }",
            "uint64_t A[8]; int main(void) { A[3] = 4; }",
        ),
        (
            "#define N 4 // cells\nuint64_t A[N], k;\n#pragma omp target update to(A[3], A[k]), from(A[:N]) depend(in: A[2 * k + N]), depend(out: A[N:])\n",
            "uint64_t A[4]; uint64_t k;\n#pragma omp target update to(A[3:1], A[k:1]) from(A[0:4]) depend(in: A[2 * k + 4:1]) depend(out: A[4:])\n",
        ),
        (
            "#define N 4 /* cells */\nuint64_t A[2 * N];\n#pragma omp target map(to: A[N - 1:N / 2], A[:], A[2:]), device(N) nowait, collapse(N-2)\n",
            "uint64_t A[8];\n#pragma omp target map(to: A[3:2], A[0:8], A[2:6]) device(4) nowait collapse(2)\n",
        ),
        (
            "uint64_t A[8], n;\n#pragma omp target parallel for default(shared), map(A[:n]), shared(A, n), firstprivate(n)\n",
            "uint64_t A[8]; uint64_t n;\n#pragma omp target parallel for map(tofrom: A[0:n])\n",
        ),
        (
            "uint64_t A[8];\n#pragma omp target enter data map(A)\n#pragma omp target exit data map(A) map(A[2:])\n",
            "uint64_t A[8];\n#pragma omp target enter data map(to: A)\n#pragma omp target exit data map(from: A) map(from: A[2:6])\n",
        ),
        (
            "uint64_t n = 8; uint64_t A[3] = {1, 0x2}; int main() { A[2] = n; }",
            "uint64_t n; uint64_t A[3]; int main(void) { n = 8; A[0] = 1; A[1] = 2; A[2] = n; }",
        ),
        (
            "#define N (2 + 4)\n#define M N\n#define F(x) x\nx = M * N;",
            "\n#define F(x) x\nx = 6 * 6;",
        ),
    ] {
        assert!(rt; is_spelled(alloc, short, long), "{short}");
    }
}
