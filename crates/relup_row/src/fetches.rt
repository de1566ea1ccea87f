//! Which modules a script fetches, and from which applications.
ghost use Rattle.std.specs.Prelude.{◌≡◌, ◌∷◌, [], ℕ, List, IfOk, OnOk, map, string_bytes};
ghost use Rattle.relup_instruction.specs.Instruction.{fetch_of};
ghost use Rattle.relup_instruction.specs.Instruction.Instruction.{load_object_code};
ghost use Rattle.relup_row.specs.Release.{relup_app_of};
ghost use Rattle.relup_row.specs.Fetches.{MentionForm, mention_of, module_of, app_of, firsts, modules_in, fetch, fetching};
ghost use Rattle.relup_block.specs.Memory.{Appends};

use crate::release::RelupApp;
use relup_block::push_instr;
use relup_instruction::{Fetch, Instr};
use std::alloc::{AllocError, Global};
use std::collections::BTreeSet;

/// A module that a script loads, with the application of the target that has it.
#[derive(Clone, Copy)]
pub struct Mention<'a> {
    pub name: &'a str,
    pub app: &'a RelupApp,
}

// A name that each mention has.
trait MentionName {
    ghost name: { MentionForm → List ℕ };

    fn of<'a>(mention: &Mention<'a>) -> &'a str
        ensures { result.now ≡ name (mention_of mention.now) };
}

// That of the module.
struct ModuleName;

impl MentionName for ModuleName {
    ghost name = { module_of };

    fn of<'a>(mention: &Mention<'a>) -> &'a str {
        mention.name
    }
}

// That of the application.
struct AppName;

impl MentionName for AppName {
    ghost name = { app_of };

    fn of<'a>(mention: &Mention<'a>) -> &'a str {
        mention.app.name.as_str()
    }
}

// The first mention of each name.
fn firsts_by<'a, N: MentionName>(
    alloc: Global,
    mentions: &[Mention<'a>],
) -> Result<Vec<Mention<'a>>, AllocError>
    ensures { IfOk result (λ v.
        map mention_of v.items ≡ firsts N.name (map mention_of mentions.now)) }
{
    let mut seen: BTreeSet<&str> = BTreeSet::new(alloc);
    let mut firsts = Vec::new(alloc);
    for mention in mentions {
        if seen.insert(N::of(mention))? {
            firsts.push(*mention)?;
        }
    }
    Ok(firsts)
}

// The modules among these that an application has.
fn modules_in(alloc: Global, app: &str, mentions: &[Mention<'_>]) -> Result<Vec<String>, AllocError>
    ensures { IfOk result (λ v.
        map string_bytes v.items ≡ modules_in app.now (map mention_of mentions.now)) }
{
    let mut modules = Vec::new(alloc);
    for mention in mentions {
        if mention.app.name.as_str() == app {
            modules.push(String::from_str(alloc, mention.name)?)?;
        }
    }
    Ok(modules)
}

fn fetch(alloc: Global, mentions: &[Mention<'_>], app: &RelupApp) -> Result<Fetch, AllocError>
    ensures { IfOk result (λ f.
        fetch_of f ≡ fetch (map mention_of mentions.now) (relup_app_of app.now)) }
{
    Ok(Fetch {
        app: app.name.clone()?,
        vsn: app.vsn.clone()?,
        modules: modules_in(alloc, app.name.as_str(), mentions)?,
    })
}

fn push_fetch(
    alloc: Global,
    modules: &[Mention<'_>],
    app: &RelupApp,
    out: &mut Vec<Instr>,
) -> Result<(), AllocError>
    ensures { OnOk result (Appends out.old.items out.new.items
        (load_object_code (fetch (map mention_of modules.now) (relup_app_of app.now)) ∷ [])) }
{
    push_instr(Instr::LoadObjectCode(fetch(alloc, modules, app)?), out)
}

/// Writes the `load_object_code` of these modules: one for each application, where it is first mentioned.
pub fn push_fetches(
    alloc: Global,
    mentions: &[Mention<'_>],
    out: &mut Vec<Instr>,
) -> Result<(), AllocError>
    ensures { OnOk result
        (Appends out.old.items out.new.items (fetching (map mention_of mentions.now))) }
{
    let modules = firsts_by::<ModuleName>(alloc, mentions)?;
    let apps = firsts_by::<AppName>(alloc, mentions)?;
    for mention in &apps {
        push_fetch(alloc, &modules, mention.app, out)?;
    }
    Ok(())
}
