// The exports for C hosts: include/punqelis.h declares them. A slice is a pointer and a length; the answer is one number. Each calls the library's function of its name.
#![tactic(auto)]

ghost use Rattle.std.specs.Prelude.{◌≡◌};
ghost use Rattle.netlist.specs.File.{check_answer};
ghost use Rattle.behaviour.specs.Service.{reset_file, run_file};
ghost use Rattle.behaviour.specs.RunList.{run_list_file};
ghost use Rattle.retiming.specs.FileRewrite.{rewrite_file};
ghost use Rattle.retiming.specs.LateFile.{late_rewrite};
ghost use Rattle.retiming.specs.Preview.{preview_file};
ghost use Rattle.punqelis.specs.Code.{as_number, as_code, as_numbers};

use punqelis::PunqelisSize;

// Checks a netlist file (1 to 10): its length, or the refusal.
#[unsafe(no_mangle)]
pub extern "C" fn punqelis_check(file: &[u8]) -> u32
    ensures { result ≡ as_number (check_answer file.now) }
{
    punqelis::punqelis_check(file)
}

// Fills a state with the reset words: its length, or the refusal, which leaves the state as it was.
#[unsafe(no_mangle)]
pub extern "C" fn punqelis_reset(file: &[u8], state: &mut [u8]) -> u32
    ensures answer { result ≡ as_number (reset_file file.now state.old).answer }
    ensures state { state.new ≡ (reset_file file.now state.old).state }
{
    punqelis::punqelis_reset(file, state)
}

// Runs one clock: the length of the outputs, or the refusal, which leaves state and outputs as they were.
#[unsafe(no_mangle)]
pub extern "C" fn punqelis_run(
    file: &[u8],
    state: &mut [u8],
    inputs: &[u8],
    outputs: &mut [u8],
) -> u32
    ensures answer { result ≡ as_number (run_file file.now state.old inputs.now outputs.old).answer }
    ensures state { state.new ≡ (run_file file.now state.old inputs.now outputs.old).state }
    ensures outputs { outputs.new ≡ (run_file file.now state.old inputs.now outputs.old).outputs }
{
    punqelis::punqelis_run(file, state, inputs, outputs)
}

// Runs a list of clocks, each with its row of the inputs and its row of the outputs: 0, or the refusal, which leaves state and outputs as they were.
#[unsafe(no_mangle)]
pub extern "C" fn punqelis_run_list(
    file: &[u8],
    state: &mut [u8],
    inputs: &[u8],
    outputs: &mut [u8],
    clocks: usize,
) -> u32
    ensures answer { result ≡ as_code (run_list_file file.now state.old inputs.now outputs.old clocks).answer }
    ensures state { state.new ≡ (run_list_file file.now state.old inputs.now outputs.old clocks).state }
    ensures outputs { outputs.new ≡ (run_list_file file.now state.old inputs.now outputs.old clocks).outputs }
{
    punqelis::punqelis_run_list(file, state, inputs, outputs, clocks)
}

// Rewrites a file so that all its ROMs are clocked: the new file's length, or the refusal, which leaves the output as it was.
#[unsafe(no_mangle)]
pub extern "C" fn punqelis_rewrite(file: &[u8], out: &mut [u8]) -> u32
    ensures answer { result ≡ as_number (rewrite_file file.now out.old).answer }
    ensures out { out.new ≡ (rewrite_file file.now out.old).out }
{
    punqelis::punqelis_rewrite(file, out)
}

// Rewrites a file with a late start, for a ROM straight behind an input port: likewise.
#[unsafe(no_mangle)]
pub extern "C" fn punqelis_rewrite_late(file: &[u8], out: &mut [u8]) -> u32
    ensures answer { result ≡ as_number (late_rewrite file.now out.old).answer }
    ensures out { out.new ≡ (late_rewrite file.now out.old).out }
{
    punqelis::punqelis_rewrite_late(file, out)
}

// What rewriting a file would give: the new file's size, and its registers by source in the list; or the refusal (1 to 14), which leaves the list as it was.
#[unsafe(no_mangle)]
pub extern "C" fn punqelis_preview(file: &[u8], list: &mut [u8]) -> PunqelisSize
    ensures numbers { result ≡ as_numbers (preview_file file.now list.old).preview }
    ensures list { list.new ≡ (preview_file file.now list.old).list }
{
    punqelis::punqelis_preview(file, list)
}
