// A plan is made from a number.
ghost use Rattle.std.specs.Prelude.{◌≡◌, ◌≤◌, ◌*◌, ◌^◌};
ghost use Rattle.ace_script.specs.Generated.{repeated, repeated_line, snooped_address, unsnooped_address, drawn_place, ace_op, lite_op, drawn_operation};

use crate::Plan;
use ace_codes::ArKind;
use ace_event::{Header, Line};
use ace_io::NoMemory;
use ace_model::{Op, PlanOp, PlanView, PolicyWord};
use rand_core::utils::NextWord;
use rand_pcg::Lcg64Xsh32;
use std::alloc::Global;

/// How many operations a generated plan has.
const GENERATED_COUNT: u16 = 512;

/// The four bytes of y, four times.
fn repeated(y: u32) -> u128
    ensures { result ≡ repeated y }
{
    u128::from(y) * 0x1_0000_0001_0000_0001_0000_0001
}

/// That word, four times.
fn repeated_line(y: u32) -> Line
    ensures { result ≡ repeated_line y }
{
    Line {
        words: [repeated(y), repeated(y), repeated(y), repeated(y)],
    }
}

/// One of eight lines that are snooped.
fn snooped_address(x: u32) -> u32
    ensures { result ≡ snooped_address x }
{
    0x1000 + 64 * (x / 4 % 8)
}

/// One of eight lines that aren't.
fn unsnooped_address(x: u32) -> u32
    ensures { result ≡ unsnooped_address x }
{
    0x8000 + 64 * (x / 4 % 8)
}

/// The number of a word of the line.
fn drawn_place(x: u32) -> u8
    ensures value { result ≡ drawn_place x }
    ensures bound { result ≤ 3 }
{
    (x / 32 % 4) as u8
}

/// The strobe of the word of this number.
fn word_strobe(w: u8) -> u64
    requires { w ≤ 3 }
    ensures { result ≡ 0xffff * 2 ^ (16 * w) }
{
    0xffff << (16 * w)
}

/// An operation of an ACE port.
fn ace_op(pick: u32, x: u32, y: u32) -> Op
    ensures { result ≡ ace_op pick x y }
{
    let addr = snooped_address(x);
    let w = drawn_place(x);
    if pick <= 3 {
        Op::Ld { addr, w }
    } else if pick <= 6 {
        let word = repeated(y);
        Op::St { addr, w, word }
    } else if pick == 7 {
        Op::Ldx { addr, w }
    } else if pick == 8 {
        let word = repeated(y);
        Op::Stx { addr, w, word }
    } else if pick == 9 {
        let line = repeated_line(y);
        Op::Fill { addr, line }
    } else if pick == 10 {
        Op::Wb { addr }
    } else if pick == 11 {
        Op::Wc { addr }
    } else if pick == 12 {
        Op::Cs { addr }
    } else if pick == 13 {
        let kind = ArKind::ReadUnique;
        Op::Pf { addr, kind }
    } else if pick == 14 {
        Op::Mb
    } else {
        Op::Dvm { word: 0x1000 }
    }
}

/// An operation of the ACE-Lite port.
fn lite_op(pick: u32, x: u32, y: u32) -> Op
    ensures { result ≡ lite_op pick x y }
{
    let addr = snooped_address(x);
    let line = repeated_line(y);
    if pick <= 3 {
        Op::Ro { addr }
    } else if pick <= 6 {
        let strobe = word_strobe(drawn_place(x));
        Op::Wu { addr, strobe, line }
    } else if pick <= 9 {
        Op::Wlu { addr, line }
    } else if pick == 10 {
        Op::Cs { addr }
    } else if pick == 11 {
        Op::Ci { addr }
    } else if pick == 12 {
        Op::Mb
    } else if pick == 13 {
        Op::Sb
    } else if pick == 14 {
        let addr = unsnooped_address(x);
        Op::Rn { addr }
    } else {
        let addr = unsnooped_address(x);
        let strobe = u64::MAX;
        Op::Wn { addr, strobe, line }
    }
}

/// The operation of two words of the generator.
#[tactic(auto, unfolding(crate::specs::Generated::drawn_operation))]
fn drawn_operation(x: u32, y: u32) -> PlanOp
    ensures { result ≡ drawn_operation x y }
{
    let port = (x % 4) as u8;
    let pick = x / 256 % 16;
    let op = if port == 3 {
        lite_op(pick, x, y)
    } else {
        ace_op(pick, x, y)
    };
    PlanOp { port, op }
}

impl Plan {
    ghost use Rattle.std.specs.Prelude.{◌≡◌, IfOk};
    ghost use Rattle.ace_script.specs.Generated.{generated};

    /// The plan that is made from n, of 512 operations: two words of a PCG generator that starts
    /// from n give each.
    ///
    /// # Errors
    ///
    /// `NoMemory` where there is none for the plan.
    #[tactic(auto, using(crate::proofs::GeneratedPlans::generating_steps))]
    pub fn generate(alloc: Global, n: u64) -> Result<Plan, NoMemory>
        ensures { IfOk result (λ plan. plan ≡ record { plan = generated n; room = 0 }) }
    {
        let header = Header {
            version: 1,
            ports: 4,
            ace: 7,
        };
        let mut view = PlanView::new(alloc, header, 4, PolicyWord::Mixed(n));
        let mut words = Lcg64Xsh32::new(n, 1);
        let mut left = GENERATED_COUNT;
        while left > 0 {
            left -= 1;
            let x = words.next_word();
            let y = words.next_word();
            view.add(drawn_operation(x, y))?;
        }
        Ok(Plan::of_view(view))
    }
}
