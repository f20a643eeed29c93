//! Copies of what a tree holds beside its own nodes.

ghost use Rattle.std.specs.Prelude.{◌≡◌, IfOk};
ghost use Rattle.c_tree.specs.TypedViews.{lib_view};

use ak_words::NoMemory;
use c_tree::copies::copy_pieces;
use c_tree::typed::Lib;
use std::alloc::Global;

/// A function of the library, again.
pub fn copy_lib(alloc: Global, lib: &Lib) -> Result<Lib, NoMemory>
    ensures { IfOk result (λ copy. lib_view copy ≡ lib_view lib.now) }
{
    match lib {
        Lib::Print(pieces) => Ok(Lib::Print(copy_pieces(alloc, pieces)?)),
        Lib::Malloc => Ok(Lib::Malloc),
        Lib::Calloc => Ok(Lib::Calloc),
        Lib::Realloc => Ok(Lib::Realloc),
        Lib::Free => Ok(Lib::Free),
        Lib::Copy => Ok(Lib::Copy),
        Lib::Start(function) => Ok(Lib::Start(*function)),
        Lib::Join => Ok(Lib::Join),
        Lib::MutexInit => Ok(Lib::MutexInit),
        Lib::MutexLock => Ok(Lib::MutexLock),
        Lib::MutexUnlock => Ok(Lib::MutexUnlock),
        Lib::MutexDestroy => Ok(Lib::MutexDestroy),
        Lib::AtomicAdd => Ok(Lib::AtomicAdd),
        Lib::AtomicSub => Ok(Lib::AtomicSub),
        Lib::AtomicSwap => Ok(Lib::AtomicSwap),
        Lib::AtomicCompare => Ok(Lib::AtomicCompare),
        Lib::AtomicStore => Ok(Lib::AtomicStore),
    }
}
