// The examples that the scope leaves unmarked, and the limits, run on the proved libraries. Each call writes one line:
// the example, the call, and what it said: 0 and its values, or the number, place and extra of a refusal; then, behind
// a colon, the lent words after it. The stored output comes from the independent program, which states the examples
// once more.
//   worked    the worked policy: its headers, its tree, its files
//   twins     rules with the words of an earlier one, in lists and in files
//   actions   the worked policy with actions, in lists and in files
//   misses    which field of a rule is the first to disagree
//   limits    lengths 32 and 0, the largest and the absent port, 512 and 513 rules, 63 and 64 cuts
//   policy    the words of the worked policy
//   calls     the searches and the checks, and the line that says the answer
//   files     the readers and the writers, likewise
//   say       the parts of a line
#![tactic(auto)]

mod actions;
mod calls;
mod files;
mod limits;
mod misses;
mod policy;
mod say;
mod twins;
mod worked;

fn main(rt: HostRuntime) {
    let to = rt.stdout();
    worked::headers(to);
    worked::absent_ports(to);
    worked::refused_headers(to);
    worked::short_room(to);
    worked::checks(to);
    worked::rule_files(to);
    worked::tree_files(to);
    twins::lists(to);
    twins::unjudged_lists(to);
    twins::rule_files(to);
    actions::checks(to);
    actions::searches(to);
    actions::one_rule(to);
    actions::rule_files(to);
    misses::worked_list(to);
    misses::narrow_rule(to);
    misses::no_rule(to);
    misses::judged_first(to);
    limits::length_32(to);
    limits::length_0(to);
    limits::past_length_32(to);
    limits::ports(to);
    limits::rules_512(to);
    limits::rules_513(to);
    limits::cuts_63(to);
    limits::cuts_64(to);
}
