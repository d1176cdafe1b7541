ghost use Rattle.std.specs.Prelude.{◌≡◌, ◌≤◌, ◌<◌, ◌+◌, length, insert, IfOk, vec_len};

use crate::memory::NoMemory;
use std::alloc::Global;
use std::marker::Model;

/// Room for a list, taken beforehand. Contracts see how many items it can hold at least.
#[derive(Drop)]
pub struct Spare<T> {
    room: Vec<T>,
}

impl<T> Model for Spare<T> {
    ghost use Rattle.std.specs.Prelude.{◌≡◌, ℕ, []};
    ghost use Rattle.std.specs.Vec.{vec_capacity};

    ghost Value = { ℕ };

    ghost view = { λ s. vec_capacity s.room };

    ghost invariant = { λ s. s.room.items ≡ [] };
}

impl<T> Spare<T> {
    /// Room for at least `most` items.
    pub fn new(alloc: Global, most: usize) -> Result<Spare<T>, NoMemory>
        ensures { IfOk result (λ spare. most ≤ spare) }
    {
        Ok(Spare {
            room: Vec::with_capacity(alloc, most)?,
        })
    }
}

/// Puts `item` at the place `index` of `items`, which then lie in the room of `spare`. It takes no
/// memory.
pub fn insert_with<T: Drop>(items: &mut Vec<T>, index: usize, item: T, spare: Spare<T>)
    requires place { index ≤ vec_len items.old }
    requires room { vec_len items.old < spare }
    ensures { items.new.items ≡ insert items.old.items index item }
{
    let Spare { mut room } = spare;
    room.append(items).unwrap();
    room.insert(index, item).unwrap();
    *items = room;
}
