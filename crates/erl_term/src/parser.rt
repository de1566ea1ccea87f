//! Tokens into terms, with the open brackets on a stack.
ghost use Rattle.std.specs.Prelude.{◌≡◌, ◌+◌, true, false, [], length, is_some, Some, OnOk, IfErr};
ghost use Rattle.erl_term.specs.Value.{value_of};
ghost use Rattle.erl_token.specs.Contents.{content_bytes};
ghost use Rattle.erl_term.specs.Machine.{step, misplaced, is_left_out, comes, cut_off, put, with_member, begins_term, open_levels, empty, bracket_of, close, enclosed, at_end, nothing_read};
ghost use Rattle.erl_term.specs.Faults.{for_a_term, for_a_segment};
ghost use Rattle.erl_token.specs.Views.{token_value, like_value, item_value};
ghost use Rattle.erl_term.specs.Views.{members_are, level_of, state_of, progress_of, all_levels, Gives, GivesTerms};
ghost use Rattle.erl_term.specs.Answers.{reading_of_spanned};
ghost use Rattle.erl_number.specs.declared.fault.TermFault.TheVariants.{NoMemory};
ghost use Rattle.erl_token.specs.declared.token.Token.TheVariants.{Open, Close, Comma, Dot, Number, Broken, Cut};
ghost use Rattle.erl_token.specs.Lexing.Token.{name as name_token, text as text_token};

use crate::character::characters;
use crate::term::{Spanned, Term};
use erl_number::TermFault;
use erl_token::{Bracket, Content, Item, Like, Token, push_characters};
use std::alloc::{AllocError, Global};
use std::mem;

/// What may come next in an open bracket.
#[derive(Clone, Copy, PartialEq, Eq)]
pub enum Slot {
    /// A first member, or the bracket's end.
    First,
    /// A member, since a comma stands before.
    Next,
    /// A comma, or the bracket's end.
    Later,
}

/// What stands in an open bracket so far.
enum Members {
    Tuple(Vec<Term>),
    List(Vec<Term>),
    /// The bytes of its segments.
    Binary(Vec<u8>),
}

// Let go by one call, as a term is.
impl Drop for Members {
    fn drop(self) {
        match self {
            Members::Tuple(_members) | Members::List(_members) => {}
            Members::Binary(_bytes) => {}
        }
    }
}

/// An open bracket, where it stands, and its members so far.
#[derive(Drop)]
struct Level {
    from: usize,
    members: Members,
}

/// What stands since the last dot.
#[derive(Drop)]
enum State {
    /// Nothing.
    Begun,
    /// A whole term, without its dot.
    Whole(Spanned),
    /// What may come next in the innermost open bracket, that bracket, and those round it, outermost first.
    Inside(Slot, Level, Vec<Level>),
}

/// The terms of the tokens that were taken.
#[derive(Drop)]
pub struct Parser {
    done: Vec<Spanned>,
    state: State,
    /// How many brackets may be open at once.
    limit: usize,
}

impl Parser {
    /// A parser that took nothing.
    pub fn new(alloc: Global, limit: usize) -> Parser
        ensures start { progress_of result ≡ nothing_read }
        ensures limit { result.limit ≡ limit }
    {
        Parser {
            done: Vec::new(alloc),
            state: State::Begun,
            limit,
        }
    }

    /// Takes one more token. After an `Err` the parser is of no use.
    pub fn take(&mut self, alloc: Global, item: &Item<'_>) -> Result<(), TermFault>
        ensures step { Gives result (progress_of self.new)
            (step self.old.limit (progress_of self.old) (item_value item.now)) }
        ensures limit { self.new.limit ≡ self.old.limit }
    {
        match &item.token {
            Token::Open(bracket) => self.open(alloc, *bracket, item),
            Token::Close(bracket) => self.close(*bracket, item),
            Token::Comma => self.separate(item),
            Token::Dot => self.end(item),
            Token::Name(name) => self.put_name(alloc, name, item),
            Token::Number(n) => self.put_number(*n, item),
            Token::Text(text) => self.put_text(alloc, text, item),
            Token::Stray(_) | Token::NotUtf8 => Err(self.state.misplaced(item)),
            Token::Broken(like, fault) => self.refuse_broken(*like, *fault, item),
            Token::Cut(like) => self.refuse_cut(*like, item),
        }
    }

    /// The terms, if the text ends here, after so many bytes.
    pub fn finish(self, size: usize) -> Result<Vec<Spanned>, TermFault>
        ensures { GivesTerms result (at_end size (progress_of self).done (progress_of self).state) }
    {
        let Parser { done, state, .. } = self;
        match state {
            State::Begun => Ok(done),
            State::Whole(_) => Err(TermFault::MissingDot(size)),
            State::Inside(_, level, _) => Err(TermFault::Unclosed(level.from)),
        }
    }

    /// A term may begin here, or else its fault is reported.
    fn expect_term(&self, item: &Item<'_>) -> Result<(), TermFault>
        ensures begins { OnOk result (begins_term (progress_of self.now).state ≡ true) }
        ensures refused { IfErr result (λ f. begins_term (progress_of self.now).state ≡ false) }
        ensures fault { IfErr result
            (λ f. f ≡ misplaced (progress_of self.now).state
            (token_value item.now.token) item.now.from) }
    {
        if self.begins_term() {
            Ok(())
        } else {
            Err(self.state.misplaced(item))
        }
    }

    /// What the token begins as may stand here, or else its fault is reported.
    fn expect(&self, like: Like, item: &Item<'_>) -> Result<(), TermFault>
        ensures may { OnOk result
            (comes self.now.limit (progress_of self.now) (like_value like) ≡ true) }
        ensures refused { IfErr result
            (λ f. comes self.now.limit (progress_of self.now) (like_value like) ≡ false) }
        ensures fault { IfErr result
            (λ f. f ≡ misplaced (progress_of self.now).state
            (token_value item.now.token) item.now.from) }
    {
        if self.may_come(like) {
            Ok(())
        } else {
            Err(self.state.misplaced(item))
        }
    }

    /// A token that begins so may stand here.
    #[tactic(auto, using(crate::proofs::ParserLemmas::comes_name, crate::proofs::ParserLemmas::comes_number, crate::proofs::ParserLemmas::comes_text, crate::proofs::ParserLemmas::comes_open_binary, crate::proofs::ParserLemmas::comes_close_binary))]
    fn may_come(&self, like: Like) -> bool
        ensures { result ≡ comes self.now.limit (progress_of self.now) (like_value like) }
    {
        match like {
            Like::Name => self.begins_term(),
            Like::Number => self.begins_member(),
            Like::Text => self.begins_member(),
            Like::OpenBinary => self.begins_term() && self.open_brackets() < self.limit,
            Like::CloseBinary => self.may_close(Bracket::Binary),
        }
    }

    /// A term may begin here.
    fn begins_term(&self) -> bool
        ensures { result ≡ begins_term (progress_of self.now).state }
    {
        match &self.state {
            State::Begun => true,
            State::Inside(Slot::First | Slot::Next, level, _) => {
                level.members.bracket() != Bracket::Binary
            }
            _ => false,
        }
    }

    /// A term or a segment of a binary may begin here.
    fn begins_member(&self) -> bool
        ensures { result ≡ is_some (open_levels (progress_of self.now).state) }
    {
        matches!(
            &self.state,
            State::Begun | State::Inside(Slot::First | Slot::Next, ..)
        )
    }

    /// The fault of the end of the text within what begins at this place.
    fn cut_off(&self, at: usize) -> TermFault
        ensures { result ≡ cut_off (progress_of self.now).state at }
    {
        match &self.state {
            State::Inside(_, level, _) => TermFault::Unclosed(level.from),
            _ => TermFault::BadToken(at),
        }
    }

    /// A term is whole: a member of the innermost bracket, or by itself.
    fn put(&mut self, whole: Spanned) -> Result<(), TermFault>
        ensures ok { OnOk result
            (progress_of self.new ≡ record (progress_of self.old) {
              state = put (reading_of_spanned whole) [] (all_levels (progress_of self.old).state);
            }) }
        ensures err { IfErr result (λ f. f ≡ NoMemory) }
        ensures limit { self.new.limit ≡ self.old.limit }
    {
        match &mut self.state {
            State::Inside(slot, level, _) => {
                level.members.push(whole.term)?;
                *slot = Slot::Later;
            }
            _ => self.state = State::Whole(whole),
        }
        Ok(())
    }

    /// A name, as an atom.
    fn put_name(
        &mut self,
        alloc: Global,
        name: &Content<'_>,
        item: &Item<'_>,
    ) -> Result<(), TermFault>
        requires { token_value item.now.token ≡ name_token (content_bytes name.now) }
        ensures step { Gives result (progress_of self.new)
            (step self.old.limit (progress_of self.old) (item_value item.now)) }
        ensures limit { self.new.limit ≡ self.old.limit }
    {
        self.expect_term(item)?;
        self.put(spanned(Term::Atom(name.to_text(alloc)?), item))
    }

    /// A token that has a fault of its own is refused.
    fn refuse_broken(&self, like: Like, fault: TermFault, item: &Item<'_>) -> Result<(), TermFault>
        requires { item.now.token ≡ Broken like fault }
        ensures { Gives result (progress_of self.now)
            (step self.now.limit (progress_of self.now) (item_value item.now)) }
    {
        self.expect(like, item)?;
        Err(fault)
    }

    /// A token that the end of the text cuts off is refused.
    fn refuse_cut(&self, like: Like, item: &Item<'_>) -> Result<(), TermFault>
        requires { item.now.token ≡ Cut like }
        ensures { Gives result (progress_of self.now)
            (step self.now.limit (progress_of self.now) (item_value item.now)) }
    {
        self.expect(like, item)?;
        Err(self.cut_off(item.from))
    }

    /// A number, by itself or as a byte of a binary.
    fn put_number(&mut self, n: i64, item: &Item<'_>) -> Result<(), TermFault>
        requires { item.now.token ≡ Number n }
        ensures step { Gives result (progress_of self.new)
            (step self.old.limit (progress_of self.old) (item_value item.now)) }
        ensures limit { self.new.limit ≡ self.old.limit }
    {
        if let State::Inside(slot, level, _) = &mut self.state {
            if let Members::Binary(bytes) = &mut level.members {
                if *slot != Slot::Later {
                    let Ok(byte) = u8::try_from(n) else {
                        return Err(TermFault::BadNumber(item.from));
                    };
                    bytes.push(byte)?;
                    *slot = Slot::Later;
                    return Ok(());
                }
            }
        }
        self.expect_term(item)?;
        self.put(spanned(Term::Int(n), item))
    }

    /// A text, as the list of its characters or as bytes of a binary.
    fn put_text(
        &mut self,
        alloc: Global,
        text: &Content<'_>,
        item: &Item<'_>,
    ) -> Result<(), TermFault>
        requires { token_value item.now.token ≡ text_token (content_bytes text.now) }
        ensures step { Gives result (progress_of self.new)
            (step self.old.limit (progress_of self.old) (item_value item.now)) }
        ensures limit { self.new.limit ≡ self.old.limit }
    {
        if let State::Inside(slot, level, _) = &mut self.state {
            if let Members::Binary(bytes) = &mut level.members {
                if *slot != Slot::Later {
                    if !push_characters(bytes, text)? {
                        return Err(TermFault::BadNumber(item.from));
                    }
                    *slot = Slot::Later;
                    return Ok(());
                }
            }
        }
        self.expect_term(item)?;
        self.put(spanned(Term::List(characters(alloc, text)?), item))
    }

    /// Opens a bracket.
    fn open(&mut self, alloc: Global, bracket: Bracket, item: &Item<'_>) -> Result<(), TermFault>
        requires { item.now.token ≡ Open bracket }
        ensures step { Gives result (progress_of self.new)
            (step self.old.limit (progress_of self.old) (item_value item.now)) }
        ensures limit { self.new.limit ≡ self.old.limit }
    {
        self.expect_term(item)?;
        if self.open_brackets() >= self.limit {
            return Err(self.state.misplaced(item));
        }
        let level = Level {
            from: item.from,
            members: Members::none(alloc, bracket),
        };
        match &mut self.state {
            State::Inside(slot, innermost, outer) => {
                outer.push(mem::replace(innermost, level))?;
                *slot = Slot::First;
            }
            State::Begun | State::Whole(_) => {
                self.state = State::Inside(Slot::First, level, Vec::new(alloc));
            }
        }
        Ok(())
    }

    /// How many brackets are open.
    fn open_brackets(&self) -> usize
        ensures { result ≡ length (all_levels (progress_of self.now).state) }
    {
        match &self.state {
            State::Inside(_, _, outer) => outer.len() + 1,
            _ => 0,
        }
    }

    /// Closes the innermost bracket.
    fn close(&mut self, bracket: Bracket, item: &Item<'_>) -> Result<(), TermFault>
        requires { item.now.token ≡ Close bracket }
        ensures step { Gives result (progress_of self.new)
            (step self.old.limit (progress_of self.old) (item_value item.now)) }
        ensures limit { self.new.limit ≡ self.old.limit }
    {
        if !self.may_close(bracket) {
            return Err(self.state.misplaced(item));
        }
        match mem::replace(&mut self.state, State::Begun) {
            State::Inside(_, level, mut outer) => {
                if let Some(around) = outer.pop() {
                    self.state = State::Inside(Slot::Next, around, outer);
                }
                self.put(level.closed(item.to))
            }
            _ => unreachable!(),
        }
    }

    /// The innermost bracket may end here.
    fn may_close(&self, bracket: Bracket) -> bool
        ensures { result ≡ is_some (close (progress_of self.now).state bracket 0) }
    {
        match &self.state {
            State::Inside(Slot::First | Slot::Later, level, _) => {
                level.members.bracket() == bracket
            }
            _ => false,
        }
    }

    /// A comma after a member.
    fn separate(&mut self, item: &Item<'_>) -> Result<(), TermFault>
        requires { item.now.token ≡ Comma }
        ensures step { Gives result (progress_of self.new)
            (step self.old.limit (progress_of self.old) (item_value item.now)) }
        ensures limit { self.new.limit ≡ self.old.limit }
    {
        match &mut self.state {
            State::Inside(slot, ..) if *slot == Slot::Later => {
                *slot = Slot::Next;
                Ok(())
            }
            _ => Err(self.state.misplaced(item)),
        }
    }

    /// A dot after a term.
    fn end(&mut self, item: &Item<'_>) -> Result<(), TermFault>
        requires { item.now.token ≡ Dot }
        ensures step { Gives result (progress_of self.new)
            (step self.old.limit (progress_of self.old) (item_value item.now)) }
        ensures limit { self.new.limit ≡ self.old.limit }
    {
        match mem::replace(&mut self.state, State::Begun) {
            State::Whole(whole) => Ok(self.done.push(whole)?),
            state => Err(state.misplaced(item)),
        }
    }
}

impl State {
    /// The fault of a token that its place alone refuses.
    fn misplaced(&self, item: &Item<'_>) -> TermFault
        ensures { result ≡ misplaced (state_of self.now)
            (token_value item.now.token) item.now.from }
    {
        match self {
            State::Begun => no_term(item),
            State::Whole(_) => match item.token {
                Token::Stray(_) | Token::NotUtf8 => TermFault::BadToken(item.from),
                _ => TermFault::MissingDot(item.from),
            },
            State::Inside(slot, level, _) => {
                let bracket = level.members.bracket();
                if is_left_out(bracket, item) {
                    TermFault::Unsupported(item.from)
                } else if *slot == Slot::Later {
                    TermFault::BadToken(item.from)
                } else if bracket == Bracket::Binary {
                    no_segment(item)
                } else {
                    no_term(item)
                }
            }
        }
    }
}

impl Level {
    /// The term that ends here.
    fn closed(self, to: usize) -> Spanned
        ensures { reading_of_spanned result
            ≡ record { term = enclosed (level_of self).members; from = self.from; to = to } }
    {
        let Level { from, members } = self;
        Spanned {
            term: members.enclosed(),
            from,
            to,
        }
    }
}

impl Members {
    /// Nothing in such a bracket.
    fn none(alloc: Global, bracket: Bracket) -> Members
        ensures { members_are result ≡ empty bracket }
    {
        match bracket {
            Bracket::Tuple => Members::Tuple(Vec::new(alloc)),
            Bracket::List => Members::List(Vec::new(alloc)),
            Bracket::Binary => Members::Binary(Vec::new(alloc)),
        }
    }

    /// The bracket that they stand in.
    fn bracket(&self) -> Bracket
        ensures { result ≡ bracket_of (members_are self.now) }
    {
        match self {
            Members::Tuple(_) => Bracket::Tuple,
            Members::List(_) => Bracket::List,
            Members::Binary(_) => Bracket::Binary,
        }
    }

    /// One term more, which adds no byte to a binary.
    fn push(&mut self, term: Term) -> Result<(), AllocError>
        ensures { OnOk result
            (members_are self.new ≡ with_member (value_of term) [] (members_are self.old)) }
    {
        match self {
            Members::Tuple(members) => {
                if members.is_empty() {
                    // Most tuples are pairs.
                    members.reserve_exact(2)?;
                }
                Ok(members.push(term)?)
            }
            Members::List(members) => Ok(members.push(term)?),
            Members::Binary(_) => Ok(()),
        }
    }

    /// The term that they are.
    fn enclosed(self) -> Term
        ensures { value_of result ≡ enclosed (members_are self) }
    {
        match self {
            Members::Tuple(members) => Term::Tuple(members),
            Members::List(members) => Term::List(members),
            Members::Binary(bytes) => Term::Bin(bytes),
        }
    }
}

/// The term, in the token's place.
fn spanned(term: Term, item: &Item<'_>) -> Spanned
    ensures { result ≡ record { term = term; from = item.now.from; to = item.now.to } }
{
    Spanned {
        term,
        from: item.from,
        to: item.to,
    }
}

/// A byte of a form of Erlang that isn't read, directly inside such a bracket.
fn is_left_out(bracket: Bracket, item: &Item<'_>) -> bool
    ensures { result ≡ is_left_out bracket (token_value item.now.token) }
{
    match (bracket, &item.token) {
        (Bracket::List, Token::Stray(byte)) => *byte == b'|',
        (Bracket::Binary, Token::Stray(byte)) => *byte == b'/' || *byte == b':',
        _ => false,
    }
}

/// The fault of a token that stands where a term may begin.
fn no_term(item: &Item<'_>) -> TermFault
    ensures { result ≡ for_a_term (token_value item.now.token) item.now.from }
{
    match item.token {
        Token::Open(_) => TermFault::Deep(item.from),
        Token::Stray(b'#') => TermFault::Unsupported(item.from),
        _ => TermFault::BadToken(item.from),
    }
}

/// The fault of a token that stands where a segment of a binary may begin.
fn no_segment(item: &Item<'_>) -> TermFault
    ensures { result ≡ for_a_segment (token_value item.now.token) item.now.from }
{
    match item.token {
        Token::Number(_) | Token::Text(_) => TermFault::BadNumber(item.from),
        _ => TermFault::BadToken(item.from),
    }
}
