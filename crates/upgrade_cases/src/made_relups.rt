//! Relups of releases that a term gives.
use crate::release_terms::{OfTerm, all_in};
use crate::texts::push_relup;
use appup_file::AppupFault;
use erl_term::Term;
use rel_files::parts::triple_in;
use rel_files::read_one_term;
use relup_file::Relup;
use relup_instruction::Direction;
use relup_translate::{RelupRelease, TranslateError, make_relup};
use std::alloc::Global;
use text_cases::{Answer, enclosed};

// What stands before and after the instructions of an upgrade, and of a downgrade.
const BEFORE_UP: &[u8] =
    b"{{\"B\",\"14\",[{k,\"5\",temporary,{[k1],none}},{a,\"2\",permanent,{[a,b,c,d],{\"2\",[{\"1\",[";

const BEHIND_UP: &[u8] =
    b"]}],[]}}}]},[{\"A\",\"14\",[{a,\"1\",permanent,{[a,b,c,e],none}},{k,\"5\",load,{[k1,k2],none}}]}],[]}.";

const BEFORE_DOWN: &[u8] =
    b"{{\"B\",\"14\",[{k,\"5\",temporary,{[k1],none}},{a,\"2\",permanent,{[a,b,c,d],{\"2\",[],[{\"1\",[";

const BEHIND_DOWN: &[u8] =
    b"]}]}}}]},[],[{\"A\",\"14\",[{a,\"1\",permanent,{[a,b,c,e],none}},{k,\"5\",load,{[k1,k2],none}}]}]}.";

/// Appends the relup for the upgrade or the downgrade, with these instructions, of an application `a` between "1" with the modules
/// a, b, c, e and "2" with a, b, c, d, beside an application `k` that stays in its version.
pub(crate) fn push_with_instrs(
    alloc: Global,
    direction: Direction,
    row: &[u8],
    answer: &mut Answer,
) {
    let (before, behind) = match direction {
        Direction::Up => (BEFORE_UP, BEHIND_UP),
        Direction::Down => (BEFORE_DOWN, BEHIND_DOWN),
    };
    match enclosed(alloc, before, row, behind) {
        Ok(file) => push_made(alloc, &file, answer),
        Err(_) => answer.note_no_memory(),
    }
}

/// Appends the relup of a release, the releases of the upgrades and those of the downgrades, or the reason why there is none.
pub(crate) fn push_made(alloc: Global, text: &[u8], answer: &mut Answer) {
    match read_one_term(alloc, text) {
        Ok(file) => match made_of(alloc, &file.term) {
            Ok(made) => push_relup(alloc, &made, answer),
            Err(fault) => answer.push_shown(&fault),
        },
        Err(fault) => answer.push_shown(&fault),
    }
}

fn made_of(alloc: Global, term: &Term) -> Result<Result<Relup, TranslateError>, AppupFault> {
    let (new, ups, downs) = releases_of(alloc, term)?;
    Ok(make_relup(alloc, &new, &ups, &downs))
}

/// The release of a term, the releases of its upgrades, and those of its downgrades.
pub(crate) fn releases_of(
    alloc: Global,
    term: &Term,
) -> Result<(RelupRelease, Vec<RelupRelease>, Vec<RelupRelease>), AppupFault> {
    let Some((new, ups, downs)) = triple_in(term) else {
        return Err(AppupFault::BadShape);
    };
    let new = RelupRelease::of_term(alloc, new)?;
    let ups = all_in(alloc, ups)?;
    let downs = all_in(alloc, downs)?;
    Ok((new, ups, downs))
}
