//! What programs print in many orders of their tasks.

use pipeline::{run_source, run_source_fine};
use std::alloc::Global;

const HALVES: &str =
    "uint64_t A[8];\nint main(void) {\n#pragma omp target enter data map(to: A)\n#pragma omp target map(tofrom: A[0:4]) nowait\nfor (uint64_t i = 0; i < 4; i += 1) { A[i] = i + 1; }\n#pragma omp target map(tofrom: A[4:4]) nowait\nfor (uint64_t i = 4; i < 8; i += 1) { A[i] = i * 10; }\n#pragma omp taskwait\n#pragma omp target update from(A)\nfor (uint64_t i = 0; i < 8; i += 1) { print(A[i]); }\n}\n";

const READERS_IN_ORDER: &str =
    "uint64_t A[4];\nuint64_t B[4];\nuint64_t C[4];\nint main(void) {\n#pragma omp target map(to: A) map(from: B) nowait depend(inout: A)\nfor (uint64_t i = 0; i < 4; i += 1) { B[i] = A[i] + 1; }\n#pragma omp target map(to: A) map(from: C) nowait depend(inout: A)\nfor (uint64_t i = 0; i < 4; i += 1) { C[i] = A[i] + 2; }\n#pragma omp taskwait\nprint(B[3]); print(C[3]);\n}\n";

const CAPTURED: &str =
    "uint64_t A[1];\nint main(void) {\nuint64_t s = 5;\n#pragma omp target map(tofrom: A) nowait\n{ A[0] = s; }\ns = 9;\n#pragma omp taskwait\nprint(A[0]);\n}\n";

const CHAIN: &str =
    "uint64_t A[1];\nuint64_t B[1];\nuint64_t C[1];\nint main(void) {\n#pragma omp target map(tofrom: C) nowait depend(out: A)\n{ C[0] = 1; }\n#pragma omp target map(tofrom: B) nowait depend(in: A) depend(out: B)\n{ B[0] = 2; }\n#pragma omp target map(tofrom: C) nowait depend(in: B)\n{ C[0] = C[0] + 5; }\n#pragma omp taskwait\nprint(C[0]); print(B[0]);\n}\n";

// Whether it prints this for each list of six choices from 0 to 2.
fn always_outputs(alloc: Global, text: &[u8], lines: &[u8]) -> bool {
    for number in 0..729 {
        let mut choices = [0; 6];
        let mut rest: u32 = number;
        for choice in &mut choices {
            *choice = rest % 3;
            rest /= 3;
        }
        match run_source(alloc, text, &[], &choices, 4_194_304) {
            Ok(answer) if answer.out.as_slice() == lines => {}
            _ => return false,
        }
    }
    true
}

// Whether it prints this on the fine-grained machine too, for each list of such choices behind so many that are 0.
fn always_outputs_by_actions(alloc: Global, text: &[u8], lines: &[u8], zeros: usize) -> bool {
    for number in 0..729 {
        let mut choices = [0; 18];
        let mut rest: u32 = number;
        for choice in choices.iter_mut().skip(zeros) {
            *choice = rest % 3;
            rest /= 3;
        }
        match run_source_fine(alloc, text, &[], &choices, &[], 4_194_304) {
            Ok(answer) if answer.out.as_slice() == lines => {}
            _ => return false,
        }
    }
    true
}

#[test]
fn all_orders_print_the_same(rt: HostRuntime) {
    for (text, lines) in [
        (HALVES, "1\n2\n3\n4\n40\n50\n60\n70\n"),
        (READERS_IN_ORDER, "1\n2\n"),
        (CAPTURED, "5\n"),
        (CHAIN, "6\n2\n"),
    ] {
        assert!(rt;
            always_outputs(rt.alloc(), text.as_bytes(), lines.as_bytes()),
            "{text}"
        );
    }
}

// Of the first source nothing else may happen next up to the twelfth event; behind it two targets may be open side by side.
#[test]
fn all_orders_of_actions_print_the_same(rt: HostRuntime) {
    for (text, lines, zeros) in [
        (HALVES, "1\n2\n3\n4\n40\n50\n60\n70\n", 12),
        (READERS_IN_ORDER, "1\n2\n", 0),
        (CAPTURED, "5\n", 0),
        (CHAIN, "6\n2\n", 0),
    ] {
        assert!(rt;
            always_outputs_by_actions(rt.alloc(), text.as_bytes(), lines.as_bytes(), zeros),
            "{text}"
        );
    }
}

const ADDITIONS: &str =
    "uint64_t A[1];\nint main(void) {\n#pragma omp target parallel for map(tofrom: A)\nfor (uint64_t i = 0; i < 2; i += 1) { A[0] = A[0] + 1; }\nprint(A[0]);\n}\n";

const PRODUCTS: &str =
    "uint64_t A[4];\nint main(void) {\n#pragma omp target teams distribute parallel for collapse(2) map(tofrom: A)\nfor (uint64_t i = 0; i < 2; i += 1) {\nfor (uint64_t j = 0; j < 2; j += 1) {\nuint64_t s = i + j;\nA[2 * i + j] = A[2 * i + j] + s * s;\n}\n}\nfor (uint64_t k = 0; k < 4; k += 1) { print(A[k]); }\n}\n";

// Whether the first run by these turns prints this.
fn outputs_by_turns(alloc: Global, text: &str, turns: &[u32], lines: &str) -> bool {
    match run_source_fine(alloc, text.as_bytes(), &[], &[], turns, 4_194_304) {
        Ok(answer) => answer.out.as_slice() == lines.as_bytes(),
        Err(_) => false,
    }
}

// Turns that meet on a cell: both load before either stores, and one addition is lost.
#[test]
fn an_order_of_turns_decides_where_they_meet(rt: HostRuntime) {
    for (turns, lines) in [
        ([0, 0, 0, 0], "2\n"),
        ([1, 1, 0, 0], "2\n"),
        ([0, 1, 0, 1], "1\n"),
    ] {
        assert!(rt;
            outputs_by_turns(rt.alloc(), ADDITIONS, &turns, lines),
            "{lines}"
        );
    }
    assert!(rt;
        outputs_by_turns(rt.alloc(), ADDITIONS, &[], "2\n"),
        "no turns are given"
    );
}

#[test]
fn all_orders_of_turns_print_the_same(rt: HostRuntime) {
    for number in 0..625u32 {
        let turns = [number % 5, number / 5 % 5, number / 25 % 5, number / 125];
        assert!(rt;
            outputs_by_turns(rt.alloc(), PRODUCTS, &turns, "0\n1\n1\n4\n"),
            "{number}"
        );
    }
}
