// One part of a list of numbers.
ghost use Rattle.std.specs.Prelude.{◌≡◌, ℕ, ◌+◌, ◌-◌, ◌<◌, ◌≤◌, List, [], ◌∷◌, ◌++◌, length, take, slice_index, IfOk, OnOk, OnErr};
ghost use Rattle.std.specs.List.{insert, remove};

use std::alloc::{AllocError, Global};
use std::collections::VecDeque;
use std::marker::Model;

/// Some numbers of a list, which can leave and come at both ends without the others being moved.
#[derive(Drop)]
pub(crate) struct Part {
    numbers: VecDeque<u32>,
}

impl Model for Part {
    ghost Value = { List ℕ };

    ghost view = { λ part. part.numbers.items };
}

impl Part {
    /// The part with this one number.
    pub(crate) fn of(alloc: Global, number: u32) -> Result<Part, AllocError>
        ensures { IfOk result (λ part. part ≡ number ∷ []) }
    {
        let mut numbers = VecDeque::with_capacity(alloc, 1)?;
        numbers.push_back_reserved(number);
        Ok(Part { numbers })
    }

    pub(crate) fn len(&self) -> usize
        ensures { result ≡ length self.now }
    {
        self.numbers.len()
    }

    pub(crate) fn get(&self, i: usize) -> u32
        requires { i < length self.now }
        ensures { result ≡ slice_index self.now i }
    {
        self.numbers[i]
    }

    /// Adds a number last.
    pub(crate) fn push(&mut self, number: u32) -> Result<(), AllocError>
        ensures ok { OnOk result (self.new ≡ self.old ++ number ∷ []) }
        ensures err { OnErr result (self.new ≡ self.old) }
    {
        match self.numbers.push_back(number) {
            Ok(()) => Ok(()),
            Err(_) => Err(AllocError),
        }
    }

    /// Takes away the last number.
    pub(crate) fn pop(&mut self)
        requires { 0 < length self.old }
        ensures { self.new ≡ take (length self.old - 1) self.old }
    {
        let _ = self.numbers.pop_back();
    }

    /// Puts a number before index `i`, and gives the last, which leaves. It takes no memory.
    pub(crate) fn push_through(&mut self, i: usize, number: u32) -> u32
        requires { i < length self.old }
        ensures { self.new ++ result ∷ [] ≡ insert self.old i number }
    {
        let Some(last) = self.numbers.pop_back() else {
            return number;
        };
        if i == 0 {
            self.numbers.push_front_reserved(number);
        } else {
            let _ = self.numbers.insert(i, number);
        }
        last
    }

    /// Takes out the number of index `i`, and adds this one last. It takes no memory.
    pub(crate) fn pull_through(&mut self, i: usize, number: u32) -> u32
        requires { i < length self.old }
        ensures rest { self.new ≡ remove self.old i ++ number ∷ [] }
        ensures number { result ≡ slice_index self.old i }
    {
        let Some(taken) = self.numbers.remove(i) else {
            return number;
        };
        self.numbers.push_back_reserved(number);
        taken
    }

    /// A copy of the part.
    pub(crate) fn copy(&self) -> Result<Part, AllocError>
        ensures { IfOk result (λ copied. copied ≡ self.now) }
    {
        let (front, back) = self.numbers.as_slices();
        let mut numbers = Vec::with_capacity(*self.numbers.allocator(), self.numbers.len())?;
        numbers.extend_from_slice(front)?;
        numbers.extend_from_slice(back)?;
        Ok(Part {
            numbers: VecDeque::from_vec(numbers),
        })
    }
}
