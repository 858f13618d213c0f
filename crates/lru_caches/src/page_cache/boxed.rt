ghost use Rattle.std.specs.Prelude.{◌≡◌, IfOk};
ghost use Rattle.std.specs.Fn.{FnOnceReturnsAtMut};

use std::alloc::{AllocError, Global};
use std::boxed::Box;
use std::marker::Model;

/// A block in a box of its own, so that a bucket of the table contains only a pointer. Contracts see the block.
#[derive(Drop)]
pub(super) struct Boxed<B> {
    inner: Box<B>,
}

impl<B> Model for Boxed<B> {
    ghost Value = { B };

    ghost coded = { B.code };

    ghost view = { λ b. b.inner.value };
}

impl<B: Copy> Boxed<B> {
    fn new(alloc: Global, block: &B) -> Result<Self, AllocError>
        ensures { IfOk result (λ b. b ≡ block.now) }
    {
        Ok(Boxed {
            inner: Box::new(alloc, *block)?,
        })
    }

    pub(super) fn get(&self) -> &B
        ensures { result.now ≡ self.now }
    {
        &self.inner
    }

    pub(super) fn set(&mut self, block: &B)
        ensures { self.new ≡ block.now }
    {
        *self.inner = *block;
    }

    pub(super) fn write<R, U: FnOnce(&mut B) -> R>(&mut self, write: U) -> R
        requires { U.IsAlwaysCallable write }
        ensures { FnOnceReturnsAtMut U.FnOnce write self.old result self.new }
    {
        write(&mut self.inner)
    }
}

/// Stores a block in a spare box, or in a new box.
pub(super) fn store<B: Copy>(
    alloc: Global,
    spare: Option<Boxed<B>>,
    block: &B,
) -> Result<Boxed<B>, AllocError>
    ensures { IfOk result (λ b. b ≡ block.now) }
{
    match spare {
        Some(mut boxed) => {
            boxed.set(block);
            Ok(boxed)
        }
        None => Boxed::new(alloc, block),
    }
}
