// The memory as the running task meets it.
ghost use Rattle.std.specs.Prelude.{◌≡◌, ℕ, ◌+◌, ◌*◌, ◌≤◌, ◌/◌, ◌%◌, ◌<◌, length, vec_len, slice_index, None, []};
ghost use Rattle.pdp_core.specs.Protection.{protected};
ghost use Rattle.rt_image.specs.Memory.{words_bytes};
ghost use Rattle.rt_tasks.specs.Parts.{LieInOrder, EndAt, nowhere};
ghost use Rattle.rt_tasks.specs.Whole.{memory_of};
ghost use Rattle.rt_tasks.specs.Ledger.{ledger};
ghost use Rattle.rt_tasks.specs.Words.{code_words, code_marks};
ghost use Rattle.rt_tasks.specs.Found.{IsFound, refusal, half_at, with_half};

use crate::code::{Marked, halved};
use pdp_core::{Bus, MEMORY_END, Protection, Refused};
use rt_words::wrap_sub;
use std::alloc::Global;
use std::mem;

/// The words of a task's SVC block, eight of them, and of its stack brick behind it. Contracts see their bytes.
#[derive(Drop)]
pub struct StackBrick {
    pub(crate) words: Vec<u16>,
}

/// The code, the data, and the block and brick of the task that runs, in words. Contracts see the bytes of the data and of the
/// block and brick.
#[derive(Drop)]
pub struct TaskMemory {
    pub code: Vec<Marked>,
    pub data_words: Vec<u16>,
    pub own: StackBrick,
    pub places: Protection,
    ghost words: { (k : ℕ) → slice_index (code_words code.items) k < 65536 },
    ghost ends: { EndAt (code_words code.items) (words_bytes data_words.items) places },
    ghost order: { LieInOrder (words_bytes own.words.items) places },
}

/// Where a word that the task may use stands: in the data or in its own block and brick, by its place there, or nowhere.
#[derive(Clone, Copy)]
pub enum Found {
    InData(usize),
    InOwn(usize),
    Nowhere,
}

/// Why a word at an address isn't there to use.
#[inline(always)]
fn refused(at: u16) -> Refused
    ensures { result ≡ refusal at }
{
    if at % 2 == 1 {
        Refused::Odd(at)
    } else {
        Refused::Access(at)
    }
}

/// The byte of a word at an even or odd address.
#[inline(always)]
fn half(word: u16, at: u16) -> u8
    ensures { result ≡ half_at word at }
{
    if at % 2 == 0 {
        (word % 256) as u8
    } else {
        (word / 256) as u8
    }
}

/// A word with another byte at an even or odd address.
#[inline(always)]
fn put_half(word: u16, at: u16, byte: u8) -> u16
    ensures { result ≡ with_half word at byte }
{
    if at % 2 == 0 {
        word / 256 * 256 + byte as u16
    } else {
        word % 256 + 256 * byte as u16
    }
}

impl TaskMemory {
    /// This code and these data, while no task runs.
    pub fn new(alloc: Global, code: Vec<Marked>, data_words: Vec<u16>) -> TaskMemory
        requires words { (k : ℕ) → slice_index (code_words code.items) k < 65536 }
        requires room { 2 * vec_len code + 2 * vec_len data_words ≤ 57344 }
        ensures code { result.code ≡ code }
        ensures data_words { result.data_words ≡ data_words }
        ensures own { result.own.words.items ≡ [] }
        ensures places { result.places ≡ nowhere (code_words code.items) (words_bytes data_words.items) }
    {
        let code_end = 2 * code.len() as u16;
        let data_end = code_end + 2 * data_words.len() as u16;
        TaskMemory {
            code,
            data_words,
            own: StackBrick {
                words: Vec::new(alloc),
            },
            places: Protection {
                code_end,
                data_end,
                block: MEMORY_END,
                brick: MEMORY_END + 16,
                brick_end: MEMORY_END + 16,
            },
        }
    }

    /// Where the word at an address stands, if the task may use it.
    #[inline(always)]
    fn find(&self, at: u16) -> Found
        ensures { IsFound self.now.data_words.items self.now.own.words.items self.now.places at result }
    {
        let place = halved(wrap_sub(at, self.places.block));
        if place < self.own.words.len() {
            return Found::InOwn(place);
        }
        let place = halved(wrap_sub(at, self.places.code_end));
        if place < self.data_words.len() {
            return Found::InData(place);
        }
        Found::Nowhere
    }

    /// Takes in the block and brick of a task that is to run.
    pub fn take_in(&mut self, own: StackBrick, places: Protection)
        requires ends { EndAt (code_words self.old.code.items) (words_bytes self.old.data_words.items) places }
        requires order { LieInOrder (words_bytes own.words.items) places }
        ensures code { self.new.code ≡ self.old.code }
        ensures data_words { self.new.data_words ≡ self.old.data_words }
        ensures own { self.new.own ≡ own }
        ensures places { self.new.places ≡ places }
    {
        self.own = own;
        self.places = places;
    }

    /// Hands out the block and brick of the task that ran.
    pub fn hand_out(&mut self) -> (StackBrick, Protection)
        ensures code { self.new.code ≡ self.old.code }
        ensures data_words { self.new.data_words ≡ self.old.data_words }
        ensures own { self.new.own.words.items ≡ [] }
        ensures places { self.new.places ≡ nowhere (code_words self.old.code.items) (words_bytes self.old.data_words.items) }
        ensures handed { result ≡ (self.old.own, self.old.places) }
    {
        let places = self.places;
        let alloc = *self.own.words.allocator();
        let none = StackBrick {
            words: Vec::new(alloc),
        };
        let own = mem::replace(&mut self.own, none);
        self.places.block = MEMORY_END;
        self.places.brick = MEMORY_END + 16;
        self.places.brick_end = MEMORY_END + 16;
        (own, places)
    }
}

impl Bus for TaskMemory {
    ghost world = { λ m. protected m.places (memory_of (code_words m.code.items) (words_bytes m.data_words.items) (words_bytes m.own.words.items) m.places (ledger (code_marks m.code.items) (words_bytes m.own.words.items) m.places)) };

    ghost accesses = { λ _. None };

    #[inline(always)]
    fn fetch(&mut self, at: u16) -> Result<u16, Refused> {
        let place = halved(at);
        if place < self.code.len() {
            Ok(self.code[place].word)
        } else {
            Err(refused(at))
        }
    }

    #[inline(always)]
    fn read_word(&mut self, at: u16) -> Result<u16, Refused> {
        match self.find(at) {
            Found::InData(place) => Ok(self.data_words[place]),
            Found::InOwn(place) => Ok(self.own.words[place]),
            Found::Nowhere => Err(refused(at)),
        }
    }

    #[inline(always)]
    fn read_byte(&mut self, at: u16) -> Result<u8, Refused> {
        match self.find(at / 2 * 2) {
            Found::InData(place) => Ok(half(self.data_words[place], at)),
            Found::InOwn(place) => Ok(half(self.own.words[place], at)),
            Found::Nowhere => Err(Refused::Access(at)),
        }
    }

    #[inline(always)]
    fn write_word(&mut self, at: u16, w: u16) -> Result<(), Refused> {
        match self.find(at) {
            Found::InData(place) => self.data_words[place] = w,
            Found::InOwn(place) => self.own.words[place] = w,
            Found::Nowhere => return Err(refused(at)),
        }
        Ok(())
    }

    #[inline(always)]
    fn write_byte(&mut self, at: u16, b: u8) -> Result<(), Refused> {
        match self.find(at / 2 * 2) {
            Found::InData(place) => self.data_words[place] = put_half(
                self.data_words[place],
                at,
                b,
            ),
            Found::InOwn(place) => {
                self.own.words[place] = put_half(self.own.words[place], at, b)
            }
            Found::Nowhere => return Err(Refused::Access(at)),
        }
        Ok(())
    }
}
