//! Updates of terms: what is written of one, over its defaults.
ghost use Rattle.std.specs.Prelude.{◌≡◌, IfOk};
ghost use Rattle.std.specs.Option.{option_map};
ghost use Rattle.erl_term.specs.Value.{members_of, value_of};
ghost use Rattle.appup_file.specs.Instruction.{change_of, update_of, appup_instruction_of};
ghost use Rattle.appup_file.specs.Parts.{advanced_in, change_in, mod_type_of, mod_type_in, plain, with_change, with_dep_mods, with_pre, with_post, with_timeout, with_mod_type, with_last, with_ending, with_purges, with_timed, with_typed, of_supervisor, update_row, update_in};

use crate::{AppupInstr, ModType, StateChange, Update};
use erl_term::Term;
use rel_files::parts::{is_word, pair_in, word_in};
use rel_files::text::names_in;
use relup_instruction::words::{purge_mode_in, timeout_in};
use relup_instruction::{PurgeMode, Timeout};
use std::alloc::{AllocError, Global};

// `{advanced, Extra}`.
fn advanced_in(word: &Term, extra: &Term) -> Result<Option<StateChange>, AllocError>
    ensures { IfOk result (λ o.
        option_map change_of o ≡ advanced_in (value_of word.now, value_of extra.now)) }
{
    if is_word(word, "advanced") {
        Ok(Some(StateChange::Advanced(extra.clone()?)))
    } else {
        Ok(None)
    }
}

// `soft` or `{advanced, Extra}`.
fn change_in(term: &Term) -> Result<Option<StateChange>, AllocError>
    ensures { IfOk result (λ o. option_map change_of o ≡ change_in (value_of term.now)) }
{
    if is_word(term, "soft") {
        return Ok(Some(StateChange::Soft));
    }
    match pair_in(term) {
        Some((word, extra)) => advanced_in(word, extra),
        None => Ok(None),
    }
}

fn mod_type_of(word: &str) -> Option<ModType>
    ensures { result ≡ mod_type_of word.now }
{
    match word {
        "static" => Some(ModType::Static),
        "dynamic" => Some(ModType::Dynamic),
        _ => None,
    }
}

fn mod_type_in(term: &Term) -> Option<ModType>
    ensures { result ≡ mod_type_in (value_of term.now) }
{
    mod_type_of(word_in(term)?)
}

impl Update {
    // An update of which nothing else is written.
    fn plain(alloc: Global, name: &str) -> Result<Update, AllocError>
        ensures { IfOk result (λ u. update_of u ≡ plain name.now) }
    {
        Ok(Update {
            name: String::from_str(alloc, name)?,
            mod_type: ModType::Dynamic,
            timeout: Timeout::Default,
            change: StateChange::Soft,
            pre: PurgeMode::Brutal,
            post: PurgeMode::Brutal,
            dep_mods: Vec::new(alloc),
        })
    }

    fn with_change(mut self, term: &Term) -> Result<Option<Update>, AllocError>
        ensures { IfOk result (λ o.
            option_map update_of o ≡ with_change (value_of term.now) (update_of self)) }
    {
        match change_in(term)? {
            Some(change) => {
                self.change = change;
                Ok(Some(self))
            }
            None => Ok(None),
        }
    }

    fn with_dep_mods(mut self, alloc: Global, term: &Term) -> Result<Option<Update>, AllocError>
        ensures { IfOk result (λ o.
            option_map update_of o ≡ with_dep_mods (value_of term.now) (update_of self)) }
    {
        match names_in(alloc, term)? {
            Some(dep_mods) => {
                self.dep_mods = dep_mods;
                Ok(Some(self))
            }
            None => Ok(None),
        }
    }

    fn with_pre(mut self, term: &Term) -> Option<Update>
        ensures { option_map update_of result ≡ with_pre (value_of term.now) (update_of self) }
    {
        self.pre = purge_mode_in(term)?;
        Some(self)
    }

    fn with_post(mut self, term: &Term) -> Option<Update>
        ensures { option_map update_of result ≡ with_post (value_of term.now) (update_of self) }
    {
        self.post = purge_mode_in(term)?;
        Some(self)
    }

    fn with_timeout(mut self, term: &Term) -> Option<Update>
        ensures { option_map update_of result ≡ with_timeout (value_of term.now) (update_of self) }
    {
        self.timeout = timeout_in(term)?;
        Some(self)
    }

    fn with_mod_type(mut self, term: &Term) -> Option<Update>
        ensures { option_map update_of result
            ≡ with_mod_type (value_of term.now) (update_of self) }
    {
        self.mod_type = mod_type_in(term)?;
        Some(self)
    }

    // What the word `supervisor` stands for: the code is static, and the supervisor is asked for its children again.
    fn of_supervisor(mut self, alloc: Global) -> Update
        ensures { update_of result ≡ of_supervisor (update_of self) }
    {
        self.mod_type = ModType::Static;
        self.change = StateChange::Advanced(Term::List(Vec::new(alloc)));
        self
    }

    // A change, the word `supervisor`, or the modules on which it depends.
    fn with_last(self, alloc: Global, term: &Term) -> Result<Option<Update>, AllocError>
        ensures { IfOk result (λ o.
            option_map update_of o ≡ with_last (value_of term.now) (update_of self)) }
    {
        match term {
            Term::List(_) => self.with_dep_mods(alloc, term),
            _ if is_word(term, "supervisor") => Ok(Some(self.of_supervisor(alloc))),
            _ => self.with_change(term),
        }
    }

    // A change, and the modules on which it depends.
    fn with_ending(
        self,
        alloc: Global,
        change: &Term,
        dep_mods: &Term,
    ) -> Result<Option<Update>, AllocError>
        ensures { IfOk result (λ o. option_map update_of o
            ≡ with_ending (value_of change.now) (value_of dep_mods.now) (update_of self)) }
    {
        match self.with_change(change)? {
            Some(update) => update.with_dep_mods(alloc, dep_mods),
            None => Ok(None),
        }
    }

    // A change, purge words, and the modules on which it depends.
    fn with_purges(
        self,
        alloc: Global,
        row: (&Term, &Term, &Term, &Term),
    ) -> Result<Option<Update>, AllocError>
        ensures { IfOk result (λ o. option_map update_of o
            ≡ with_purges (value_of row.entry.0.now) (value_of row.entry.1.now)
            (value_of row.entry.2.now) (value_of row.entry.3.now) (update_of self)) }
    {
        let (change, pre, post, dep_mods) = row;
        let Some(update) = self.with_pre(pre) else {
            return Ok(None);
        };
        match update.with_post(post) {
            Some(update) => update.with_ending(alloc, change, dep_mods),
            None => Ok(None),
        }
    }

    // A timeout, and what stands after it.
    fn with_timed(
        self,
        alloc: Global,
        timeout: &Term,
        row: (&Term, &Term, &Term, &Term),
    ) -> Result<Option<Update>, AllocError>
        ensures { IfOk result (λ o. option_map update_of o
            ≡ with_timed (value_of timeout.now) (value_of row.entry.0.now)
            (value_of row.entry.1.now)
            (value_of row.entry.2.now) (value_of row.entry.3.now) (update_of self)) }
    {
        match self.with_timeout(timeout) {
            Some(update) => update.with_purges(alloc, row),
            None => Ok(None),
        }
    }

    // Whether its code is static or dynamic, and what stands after it.
    fn with_typed(
        self,
        alloc: Global,
        mod_type: &Term,
        timeout: &Term,
        row: (&Term, &Term, &Term, &Term),
    ) -> Result<Option<Update>, AllocError>
        ensures { IfOk result (λ o. option_map update_of o
            ≡ with_typed (value_of mod_type.now) (value_of timeout.now) (value_of row.entry.0.now)
            (value_of row.entry.1.now) (value_of row.entry.2.now) (value_of row.entry.3.now)
            (update_of self)) }
    {
        match self.with_mod_type(mod_type) {
            Some(update) => update.with_timed(alloc, timeout, row),
            None => Ok(None),
        }
    }

    // What is written after the module.
    fn with_row(self, alloc: Global, row: &[Term]) -> Result<Option<Update>, AllocError>
        ensures { IfOk result (λ o.
            option_map update_of o ≡ update_row (members_of row.now) (update_of self)) }
    {
        match row {
            [] => Ok(Some(self)),
            [last] => self.with_last(alloc, last),
            [change, dep_mods] => self.with_ending(alloc, change, dep_mods),
            [_, _, _] => Ok(None),
            [change, pre, post, dep_mods] => {
                self.with_purges(alloc, (change, pre, post, dep_mods))
            }
            [timeout, change, pre, post, dep_mods] => {
                self.with_timed(alloc, timeout, (change, pre, post, dep_mods))
            }
            [mod_type, timeout, change, pre, post, dep_mods] => {
                self.with_typed(alloc, mod_type, timeout, (change, pre, post, dep_mods))
            }
            _ => Ok(None),
        }
    }
}

// An update of a module, with what is written after it.
pub(crate) fn update_in(
    alloc: Global,
    name: &str,
    row: &[Term],
) -> Result<Option<AppupInstr>, AllocError>
    ensures { IfOk result (λ o.
        option_map appup_instruction_of o ≡ update_in name.now (members_of row.now)) }
{
    let update = Update::plain(alloc, name)?;
    Ok(update.with_row(alloc, row)?.map(AppupInstr::Update))
}
