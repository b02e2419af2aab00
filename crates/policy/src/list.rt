// The list of the rule file.
ghost use Rattle.policy.specs.Files.{text_in};
ghost use Rattle.policy.specs.TakeList.{ListTaken};

use crate::file::text_of;
use refusals::Refusal;
use rule_file::read::rules_read;
use rules::words::RULE_WORDS;

// How many words the list has, which stand from the front of `rules` on; the rest of `rules` is as found. A refusal
// writes nothing.
pub fn take_list(file: Option<usize>, buffer: &[u8], rules: &mut [u32]) -> Result<usize, Refusal>
    ensures { ListTaken (text_in file buffer.now) rules.old result rules.new }
{
    let Some(text) = text_of(file, buffer) else {
        return Err(Refusal::FileNotRead);
    };
    // The reader says how many rules there are; each has its words.
    let read = rules_read(text, rules)?;
    Ok(read.rules * RULE_WORDS)
}
