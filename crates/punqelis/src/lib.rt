// What C hosts call, over Rattle's slices; the crate punqelis_c exports it. The answer is one number.
#![tactic(auto)]

ghost use Rattle.std.specs.Prelude.{◌≡◌, ◌≤◌};
ghost use Rattle.netlist.specs.File.{check_answer};
ghost use Rattle.behaviour.specs.Service.{reset_file, run_file};
ghost use Rattle.behaviour.specs.RunList.{run_list_file};
ghost use Rattle.retiming.specs.FileRewrite.{rewrite_file};
ghost use Rattle.retiming.specs.LateFile.{late_rewrite};
ghost use Rattle.retiming.specs.Preview.{preview_file};
ghost use Rattle.punqelis.specs.Code.{answer_of, as_number, as_code, as_numbers};
ghost use Rattle.punqelis.specs.CodeLaws.{LengthWithin};

use checks::check_file;
use netlist::Answer;
use preview::preview_file;
use retiming::Preview;
use rewriter::{rewrite_file, rewrite_late};
use run::{reset_state, run_clock};
use run_list::run_list;

// The header's struct punqelis_size.
#[repr(C)]
#[derive(Clone, Copy)]
pub struct PunqelisSize {
    pub answer: u32,
    pub clocked_roms: u32,
    pub registers: u32,
    pub largest_lead: u32,
    pub sources: u32,
}

// The number of an answer whose length is no more than a file's.
fn code(a: Answer) -> u32
    requires { LengthWithin 65535 a }
    ensures { result ≡ as_number a }
{
    match a {
        Answer::Accepted(n) => n as u32,
        Answer::Refused(number, place) => number as u32 * 65536 + place as u32,
    }
}

// The number of a refusal, and 0 where there is none: the length of a list of runs can be past every number.
fn refusal_code(a: Answer) -> u32
    ensures { result ≡ as_code a }
{
    match a {
        Answer::Accepted(_) => 0,
        Answer::Refused(number, place) => code(Answer::Refused(number, place)),
    }
}

// The numbers of a preview.
fn numbers(p: Preview) -> PunqelisSize
    requires { LengthWithin 65535 (answer_of p) }
    ensures { result ≡ as_numbers p }
{
    match p {
        Preview::Fits(size) => PunqelisSize {
            answer: code(Answer::Accepted(size.length)),
            clocked_roms: size.clocked as u32,
            registers: size.registers as u32,
            largest_lead: size.lead as u32,
            sources: size.sources as u32,
        },
        Preview::Refused(number, place) => PunqelisSize {
            answer: code(Answer::Refused(number, place)),
            clocked_roms: 0,
            registers: 0,
            largest_lead: 0,
            sources: 0,
        },
    }
}

// Checks a netlist file (1 to 10): its length, or the refusal.
pub fn punqelis_check(file: &[u8]) -> u32
    ensures { result ≡ as_number (check_answer file.now) }
{
    code(check_file(file))
}

// Fills a state with the reset words: its length, or the refusal, which leaves the state as it was.
pub fn punqelis_reset(file: &[u8], state: &mut [u8]) -> u32
    ensures answer { result ≡ as_number (reset_file file.now state.old).answer }
    ensures state { state.new ≡ (reset_file file.now state.old).state }
{
    code(reset_state(file, state))
}

// Runs one clock: the length of the outputs, or the refusal, which leaves state and outputs as they were.
pub fn punqelis_run(file: &[u8], state: &mut [u8], inputs: &[u8], outputs: &mut [u8]) -> u32
    ensures answer { result ≡ as_number (run_file file.now state.old inputs.now outputs.old).answer }
    ensures state { state.new ≡ (run_file file.now state.old inputs.now outputs.old).state }
    ensures outputs { outputs.new ≡ (run_file file.now state.old inputs.now outputs.old).outputs }
{
    code(run_clock(file, state, inputs, outputs))
}

// Runs a list of clocks, each with its row of the inputs and its row of the outputs: 0, or the refusal, which leaves state and outputs as they were.
pub fn punqelis_run_list(
    file: &[u8],
    state: &mut [u8],
    inputs: &[u8],
    outputs: &mut [u8],
    clocks: usize,
) -> u32
    ensures answer { result ≡ as_code (run_list_file file.now state.old inputs.now outputs.old clocks).answer }
    ensures state { state.new ≡ (run_list_file file.now state.old inputs.now outputs.old clocks).state }
    ensures outputs { outputs.new ≡ (run_list_file file.now state.old inputs.now outputs.old clocks).outputs }
{
    refusal_code(run_list(file, state, inputs, outputs, clocks))
}

// Rewrites a file so that all its ROMs are clocked: the new file's length, or the refusal, which leaves the output as it was.
pub fn punqelis_rewrite(file: &[u8], out: &mut [u8]) -> u32
    ensures answer { result ≡ as_number (rewrite_file file.now out.old).answer }
    ensures out { out.new ≡ (rewrite_file file.now out.old).out }
{
    code(rewrite_file(file, out))
}

// Rewrites a file with a late start, for a ROM straight behind an input port: likewise.
pub fn punqelis_rewrite_late(file: &[u8], out: &mut [u8]) -> u32
    ensures answer { result ≡ as_number (late_rewrite file.now out.old).answer }
    ensures out { out.new ≡ (late_rewrite file.now out.old).out }
{
    code(rewrite_late(file, out))
}

// What rewriting a file would give: the new file's size, and its registers by source in the list; or the refusal (1 to 14), which leaves the list as it was.
pub fn punqelis_preview(file: &[u8], list: &mut [u8]) -> PunqelisSize
    ensures numbers { result ≡ as_numbers (preview_file file.now list.old).preview }
    ensures list { list.new ≡ (preview_file file.now list.old).list }
{
    numbers(preview_file(file, list))
}
