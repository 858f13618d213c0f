//! The texts of keys.
ghost use Rattle.std.specs.Prelude.{◌≡◌, ◌+◌, ◌^◌, ◌<◌, ◌≤◌, [], ◌∷◌, ◌++◌, length, get_or, OnOk, OnErr, IfOk, None};
ghost use Rattle.lru_trace.specs.Names.{number_in, texts, AreEnds, chain_of, AreLinked};

use crate::samples::hash;
use std::alloc::{AllocError, Global};
use std::marker::Model;

/// The number of chains of new `Names`.
const FEWEST: usize = 16;

/// Texts that stand one after another in one block. `ends` says where each text ends.
#[derive(Drop)]
struct Texts {
    bytes: Vec<u8>,
    ends: Vec<usize>,
}

impl Model for Texts {
    ghost use Rattle.std.specs.Prelude.{ℕ, List, length};
    ghost use Rattle.lru_trace.specs.Names.{texts, AreEnds};

    ghost Value = { List (List ℕ) };

    ghost view = { λ t. texts 0 t.ends.items t.bytes.items };

    ghost invariant = { λ t. AreEnds 0 t.ends.items (length t.bytes.items) };
}

/// Returns where a text starts. It starts where the text before it ends.
fn start_of(ends: &[usize], number: usize) -> usize
    requires { number ≤ length ends.now }
    ensures { result ≡ get_or (0 ∷ ends.now) number 0 }
{
    if number == 0 { 0 } else { ends[number - 1] }
}

#[tactic(auto, using(crate::proofs::NamesTexts::text_at))]
fn text_of<'a>(bytes: &'a [u8], ends: &[usize], number: usize) -> &'a [u8]
    requires within { number < length ends.now }
    requires are { AreEnds 0 ends.now (length bytes.now) }
    ensures { result.now ≡ get_or (texts 0 ends.now bytes.now) number [] }
{
    &bytes[start_of(ends, number)..ends[number]]
}

impl Texts {
    fn new(alloc: Global) -> Self
        ensures { result ≡ [] }
    {
        Texts {
            bytes: Vec::new(alloc),
            ends: Vec::new(alloc),
        }
    }

    fn len(&self) -> usize
        ensures { result ≡ length self.now }
    {
        self.ends.len()
    }

    fn get(&self, number: usize) -> &[u8]
        requires { number < length self.now }
        ensures { result.now ≡ get_or self.now number [] }
    {
        text_of(&self.bytes, &self.ends, number)
    }

    fn push(&mut self, text: &[u8]) -> Result<(), AllocError>
        ensures ok { OnOk result (self.new ≡ self.old ++ text.now ∷ []) }
        ensures err { OnErr result (self.new ≡ self.old) }
    {
        self.ends.reserve(1)?;
        self.bytes.extend_from_slice(text)?;
        self.ends.push_reserved(self.bytes.len());
        Ok(())
    }
}

/// The texts of keys. The first text that was added has the number 0, the next text 1, and so on.
///
/// The texts whose hashes leave the same remainder form a chain. `newest` contains a link to the newest text of each
/// chain, and `older` contains, for each text, a link to the next older text of its chain. A link is one more than the
/// number of a text, and 0 if there is no text. At most 2 ^ 32 - 1 texts can be added.
///
/// A text takes its bytes and between 16 and 20 bytes more. The hashes have no seeds, so an attacker can choose texts
/// that all stand in one chain.
#[derive(Drop)]
pub struct Names {
    texts: Texts,
    newest: Vec<u32>,
    older: Vec<u32>,
    alloc: Global,
}

impl Model for Names {
    ghost use Rattle.std.specs.Prelude.{ℕ, List};
    ghost use Rattle.lru_trace.specs.Names.{AreNames};

    ghost Value = { List (List ℕ) };

    ghost view = { λ n. n.texts };

    ghost invariant = { λ n. AreNames n.texts n.newest.items n.older.items };
}

/// Returns the chain of a text if there are this many chains.
#[tactic(auto, unfolding(crate::specs::Names::chain_of))]
fn chain_of(text: &[u8], chains: usize) -> usize
    requires { 0 < chains }
    ensures is { result ≡ chain_of chains text.now }
    ensures within { result < chains }
{
    let hash = hash(text);
    (hash ^ (hash >> 32)) as usize % chains
}

/// Adds a text to its chain. The texts with smaller numbers stand in their chains already.
fn add_to_chain(texts: &Texts, number: usize, newest: &mut [u32], older: &mut [u32])
    requires few { number + 1 < 2 ^ 32 }
    requires within { number < length texts.now }
    requires linked { AreLinked texts.now number newest.old older.old }
    ensures { AreLinked texts.now (number + 1) newest.new older.new }
{
    let chain = chain_of(texts.get(number), newest.len());
    older[number] = newest[chain];
    newest[chain] = (number + 1) as u32;
}

impl Names {
    pub fn new(alloc: Global) -> Result<Self, AllocError>
        ensures { IfOk result (λ names. names ≡ []) }
    {
        Ok(Names {
            texts: Texts::new(alloc),
            newest: vec![in alloc; 0; FEWEST]?,
            older: Vec::new(alloc),
            alloc,
        })
    }

    /// Returns the number of a text.
    ///
    /// Cost: `O(1)` expected.
    pub fn find(&self, text: &str) -> Option<usize>
        ensures { result ≡ number_in self.now text.now }
    {
        let text = text.as_bytes();
        let mut link = self.newest[chain_of(text, self.newest.len())] as usize;
        while link > 0 {
            let number = link - 1;
            if self.texts.get(number) == text {
                return Some(number);
            }
            link = self.older[number] as usize;
        }
        None
    }

    /// Doubles the number of chains if there are as many texts as chains.
    fn grow_if_full(&mut self) -> Result<(), AllocError>
        ensures { self.new ≡ self.old }
    {
        let chains = self.newest.len();
        if self.texts.len() < chains {
            return Ok(());
        }
        let mut newest = vec![in self.alloc; 0; 2 * chains]?;
        for number in 0..self.texts.len() {
            add_to_chain(&self.texts, number, &mut newest, &mut self.older);
        }
        self.newest = newest;
        Ok(())
    }

    /// Adds a text.
    ///
    /// Cost: `O(1)` expected, amortised over the texts.
    ///
    /// # Errors
    ///
    /// Out of memory, or there are 2 ^ 32 - 1 texts. The text was not added.
    pub fn add(&mut self, text: &str) -> Result<(), AllocError>
        requires { number_in self.old text.now ≡ None }
        ensures ok { OnOk result (self.new ≡ self.old ++ text.now ∷ []) }
        ensures err { OnErr result (self.new ≡ self.old) }
    {
        let number = self.texts.len();
        if number >= u32::MAX as usize {
            return Err(AllocError);
        }
        self.grow_if_full()?;
        self.older.reserve(1)?;
        self.texts.push(text.as_bytes())?;
        self.older.push_reserved(0);
        add_to_chain(&self.texts, number, &mut self.newest, &mut self.older);
        Ok(())
    }
}
