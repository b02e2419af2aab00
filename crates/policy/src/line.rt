// The line that the program writes for a verdict.
ghost use Rattle.std.specs.Prelude.{◌≤◌, length};
ghost use Rattle.text.specs.Said.{Said};
ghost use Rattle.console.specs.Lines.{most_refused};
ghost use Rattle.policy.specs.Output.{verdict_line};

use console::say::refused_line;
use refusals::Refusal;

// The line of a refusal, from the front of `out` on; nothing where the verdict is fine. The rest of `out` is as found.
pub fn verdict_line(verdict: Result<(), Refusal>, out: &mut [u8]) -> Result<usize, Refusal>
    ensures said { Said (verdict_line verdict) out.old result out.new }
    ensures short { length (verdict_line verdict) ≤ most_refused }
{
    match verdict {
        Ok(()) => Ok(0),
        Err(why) => refused_line(why, out),
    }
}
