//! The program `upgrade_cases`: what the libraries of upgrades make of the texts on its input, a case a line. [`answer`] has the
//! modes: tables of modules that `mod_table` reads, relups that `relup_file` reads and searches, appups that `appup_file` reads and
//! `appup_match` searches, what `relup_lint` refuses of instructions, and relups that `relup_translate` and `relup_by_patterns`
//! make of releases, and `relup_command` of files.
#![tactic(auto)]

mod answers;
mod appup_texts;
mod appups;
mod lints;
mod made_relups;
mod patterns;
mod release_terms;
mod relups;
mod relups_of_files;
mod tables;
mod texts;

use crate::answers::answer;
use std::alloc::Global;
use std::io;
use text_cases::answer_cases;

fn main(rt: HostRuntime) -> io::Result<()> {
    answer_cases(&rt, |alloc: Global, mode: &str, text: &[u8]| {
        answer(alloc, mode, text)
    })
}
