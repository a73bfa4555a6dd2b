// Kernels that several threads do in parts.

ghost use Rattle.std.specs.Prelude.{◌≤◌};

use crate::sources::run_source;
use device::Job;
use host::{Gate, Phase};
use kernel::{Done, run};
use std::alloc::{AllocError, Global};
use std::process::Abort;
use std::sync::Wait;
use std::sync::atomic::{AtomicU64, Ordering};
use std::test::Fail;
use std::thread::Threads;

// What stands before a kernel, and behind it.
const BEFORE: &str =
    "uint64_t A[6000];\nuint64_t B[6000];\nint main(void) {\nfor (uint64_t i = 0; i < 6000; i += 1) { B[i] = i * i + 7; }\n";

const BEHIND: &str =
    "uint64_t sum = 0;\nfor (uint64_t i = 0; i < 6000; i += 1) { sum = sum * 31 + A[i]; }\nprint(A[1]); print(A[2999]); print(A[3000]); print(A[5999]); print(sum);\n}\n";

const CELLS: &str =
    "#pragma omp target teams distribute parallel for\nfor (uint64_t i = 0; i < 6000; i += 1) { A[i] = B[i] * 3 + i; }\n";

const OTHERS: &str =
    "#pragma omp target teams distribute parallel for\nfor (uint64_t i = 0; i < 6000; i += 1) { A[i] = A[i] + B[(i * 7) % 6000] + B[5999 - i]; }\n";

const SCALARS: &str =
    "#pragma omp target teams distribute parallel for\nfor (uint64_t i = 0; i < 6000; i += 1) { uint64_t x = B[i] ^ (i << 3); uint64_t y = x * 3; x = x + y; A[i] = x ^ (y >> 2); }\n";

const CAPTURED: &str =
    "uint64_t t = 4;\n#pragma omp target teams distribute parallel for\nfor (uint64_t i = 0; i < 6000; i += 1) { A[i] = t + i; }\n";

const CHOICES: &str =
    "#pragma omp target teams distribute parallel for\nfor (uint64_t i = 0; i < 6000; i += 1) { if (B[i] % 3 == 1) { A[i] = B[i] + 1; } else { if (i > 2000) { uint64_t x = i * 5; A[i] = x; } } }\n";

const SUMS: &str =
    "#pragma omp target teams distribute parallel for\nfor (uint64_t i = 0; i < 6000; i += 1) { uint64_t s = i; for (uint64_t j = 0; j < 70; j += 1) { s = s + B[(i + j) % 6000]; } A[i] = s; }\n";

const ROWS: &str =
    "#pragma omp target teams distribute parallel for\nfor (uint64_t i = 0; i < 60; i += 1) { for (uint64_t j = 0; j < 100; j += 1) { A[100 * i + j] = B[60 * j + i] + j; } }\n";

const NEST: &str =
    "#pragma omp target teams distribute parallel for collapse(2)\nfor (uint64_t i = 0; i < 60; i += 1) { for (uint64_t j = 0; j < 100; j += 1) { A[100 * i + j] = B[60 * j + i] ^ i; } }\n";

const THIRDS: &str =
    "#pragma omp target teams distribute parallel for\nfor (uint64_t i = 2; i < 5998; i += 3) { A[i + 1] = B[i] + A[i + 1]; A[i] = i; }\n";

const TWO_ARRAYS: &str =
    "#pragma omp target teams distribute parallel for\nfor (uint64_t i = 0; i < 3000; i += 1) { A[i] = B[i + 3000]; B[i] = A[i + 3000] + i; }\nfor (uint64_t i = 0; i < 3000; i += 1) { A[i + 3000] = B[i]; }\n";

const KEPT: &str =
    "#pragma omp target data map(tofrom: A) map(to: B)\n{\nfor (uint64_t k = 0; k < 5; k += 1) {\n#pragma omp target teams distribute parallel for\nfor (uint64_t i = 1; i < 5999; i += 1) { A[i] = B[i - 1] + B[i + 1] + k; }\n#pragma omp target teams distribute parallel for\nfor (uint64_t i = 0; i < 6000; i += 1) { B[i] = A[i] + 1; }\n}\n}\n";

const ONE_TURN: &str =
    "#pragma omp target teams distribute parallel for\nfor (uint64_t i = 0; i < 1; i += 1) { for (uint64_t j = 0; j < 100; j += 1) { A[100 * i + j] = B[j] + i; } }\n";

const TWO_TURNS: &str =
    "#pragma omp target teams distribute parallel for\nfor (uint64_t i = 0; i < 2; i += 1) { for (uint64_t j = 0; j < 100; j += 1) { A[100 * i + j] = B[j] + i; } }\n";

const THREE_TURNS: &str =
    "#pragma omp target teams distribute parallel for\nfor (uint64_t i = 0; i < 3; i += 1) { for (uint64_t j = 0; j < 100; j += 1) { A[100 * i + j] = B[j] + i; } }\n";

const FIVE_TURNS: &str =
    "#pragma omp target teams distribute parallel for\nfor (uint64_t i = 0; i < 5; i += 1) { for (uint64_t j = 0; j < 100; j += 1) { A[100 * i + j] = B[j] + i; } }\n";

// Has every kernel done in as many parts as there are workers for it. Counts the items, and those that are done in one
// part.
#[derive(Drop)]
struct Splitting {
    items: AtomicU64,
    whole: AtomicU64,
}

impl Gate for Splitting {
    fn pass(&self, _item: u32, phase: Phase) {
        if phase == Phase::Computed {
            self.items.fetch_add(1, Ordering::SeqCst);
        }
    }

    fn least_work(&self) -> u64 {
        1
    }

    fn compute<'f, 'a>(
        &self,
        alloc: Global,
        _item: u32,
        job: &'f Job<'a>,
    ) -> Result<Done<'a, 'f, 'a>, AllocError> {
        self.whole.fetch_add(1, Ordering::SeqCst);
        run(alloc, job.code, &job.frame)
    }
}

impl Splitting {
    // How many items were done in parts.
    fn split(&self) -> u64 {
        self.items
            .load(Ordering::SeqCst)
            .saturating_sub(self.whole.load(Ordering::SeqCst))
    }
}

// Whether so many workers print these lines, and do so many kernels in parts.
fn prints<R: Threads + Wait + Sync>(
    rt: &R,
    alloc: Global,
    kernel: &str,
    lines: &str,
    workers: usize,
    split: u64,
) -> Result<bool, Fail>
    requires some { 1 ≤ workers }
    requires few { workers ≤ 16 }
{
    let text = format!(in alloc; "{BEFORE}{kernel}{BEHIND}")?;
    let gate = Splitting {
        items: AtomicU64::new(0),
        whole: AtomicU64::new(0),
    };
    let answer = run_source(rt, alloc, &text, &[], workers, 65_536, &gate)?;
    Ok(answer.out.as_slice() == lines.as_bytes() && gate.split() == split)
}

// The same of 1, 2, 3, 4 and 16 workers, of which one does nothing in parts.
fn always_prints<R: Threads + Wait + Sync>(
    rt: &R,
    alloc: Global,
    kernel: &str,
    lines: &str,
    split: u64,
) -> Result<bool, Fail> {
    Ok(
        prints(rt, alloc, kernel, lines, 1, 0)?
            && prints(rt, alloc, kernel, lines, 2, split)?
            && prints(rt, alloc, kernel, lines, 3, split)?
            && prints(rt, alloc, kernel, lines, 4, split)?
            && prints(rt, alloc, kernel, lines, 16, split)?,
    )
}

#[test]
fn parts_do_what_all_turns_do(rt: HostRuntime) -> Result<(), Fail> {
    for (kernel, lines, split) in [
        (
            CELLS,
            "25\n26985023\n27003021\n107970023\n17008657768768043024\n",
            1,
        ),
        (
            OTHERS,
            "35976067\n17958063\n17994015\n35916063\n6448055541669067520\n",
            1,
        ),
        (
            SCALARS,
            "0\n37915784\n37937465\n151672764\n17095452608033211700\n",
            1,
        ),
        (CAPTURED, "5\n3003\n3004\n6003\n6293387525932087224\n", 1),
        (
            CHOICES,
            "0\n14995\n9000008\n29995\n10305039261824705437\n",
            1,
        ),
        (
            SUMS,
            "117286\n644180624\n644605385\n36101624\n7651183532866405560\n",
            1,
        ),
        (
            ROWS,
            "3608\n35629067\n907\n35988107\n6093943567993875992\n",
            1,
        ),
        (
            NEST,
            "3607\n35628981\n917\n35987987\n4158634218858143904\n",
            1,
        ),
        (THIRDS, "0\n2999\n8994008\n0\n16513946973778118713\n", 1),
        (
            TWO_ARRAYS,
            "9006008\n35988008\n0\n2999\n5382812660469819744\n",
            1,
        ),
        (
            KEPT,
            "232\n287808472\n288000440\n0\n12954670235949778250\n",
            10,
        ),
    ] {
        assert!(rt; always_prints(&rt, rt.alloc(), kernel, lines, split)?);
    }
    Ok(())
}

#[test]
fn there_may_be_more_workers_than_turns(rt: HostRuntime) -> Result<(), Fail> {
    for (kernel, lines) in [
        (ONE_TURN, "8\n0\n0\n0\n12687767698814110806\n"),
        (TWO_TURNS, "8\n0\n0\n0\n14452279393001814508\n"),
        (THREE_TURNS, "8\n0\n0\n0\n13677736029322463426\n"),
        (FIVE_TURNS, "8\n0\n0\n0\n17446660924296694318\n"),
    ] {
        assert!(rt; always_prints(&rt, rt.alloc(), kernel, lines, 1)?);
    }
    Ok(())
}
