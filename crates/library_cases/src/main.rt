//! The program `library_cases`: what the libraries of texts, releases and their lists make of the texts on its input, a case a
//! line. [`answer`] has the modes: texts and terms of `erl_term`, release files of `rel_files`, files of applications of
//! `rel_files`, lists of releases of `rel_list`, the records of `rel_records` that make such a list, the files of a release as
//! `rel_unpack` takes them, what `rel_check` finds wrong with them, and the relup beside them.
#![tactic(auto)]

mod answers;
mod apps;
mod bundles;
mod checks;
mod kept;
mod libraries;
mod lists;
mod made_files;
mod readers;
mod records;
mod release_files;
mod relups;
mod terms;

use crate::answers::answer;
use std::io;
use text_cases::answer_cases;

fn main(rt: HostRuntime) -> io::Result<()> {
    answer_cases(&rt, answer)
}
