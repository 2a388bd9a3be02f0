// The operations on two lines, each as a value, so that what they have in common stands once.
ghost use Rattle.std.specs.Prelude.{◌≡◌, ℕ, Ok, Result};
ghost use Rattle.fault.specs.declared.fault.Fault.{Fault};
ghost use Rattle.slope.specs.Rules.{divided, given};
ghost use Rattle.slope.specs.Rules as rules;
ghost use Rattle.slope.specs.declared.record.Record.{Record};

use fault::Fault;
use kind::NumberKind;
use product::product;
use quotient::quotient;
use slope::{Record, difference, greater, lesser, sum};

pub trait Joint<K: NumberKind>: Copy {
    ghost joined: { ℕ → Record K → Record K → Result (Record K) Fault };

    fn join(self, p: &Record<K>, q: &Record<K>, place: usize) -> Result<Record<K>, Fault>
        ensures { result ≡ joined place p.now q.now };
}

#[derive(Clone, Copy)]
pub struct Sum;

impl<K: NumberKind> Joint<K> for Sum {
    ghost joined = { λ place p q. given place (rules.sum K.NumberKind.model p q) };

    #[inline(always)]
    fn join(self, p: &Record<K>, q: &Record<K>, place: usize) -> Result<Record<K>, Fault> {
        sum(p, q, place)
    }
}

#[derive(Clone, Copy)]
pub struct Difference;

impl<K: NumberKind> Joint<K> for Difference {
    ghost joined = { λ place p q. given place (rules.difference K.NumberKind.model p q) };

    #[inline(always)]
    fn join(self, p: &Record<K>, q: &Record<K>, place: usize) -> Result<Record<K>, Fault> {
        difference(p, q, place)
    }
}

#[derive(Clone, Copy)]
pub struct Product;

impl<K: NumberKind> Joint<K> for Product {
    ghost joined = { λ place p q. given place (rules.product K.NumberKind.model p q) };

    #[inline(always)]
    fn join(self, p: &Record<K>, q: &Record<K>, place: usize) -> Result<Record<K>, Fault> {
        product(p, q, place)
    }
}

#[derive(Clone, Copy)]
pub struct Quotient;

impl<K: NumberKind> Joint<K> for Quotient {
    ghost joined = { λ place p q. divided K.NumberKind.model place p q };

    #[inline(always)]
    fn join(self, p: &Record<K>, q: &Record<K>, place: usize) -> Result<Record<K>, Fault> {
        quotient(p, q, place)
    }
}

#[derive(Clone, Copy)]
pub struct Greater;

impl<K: NumberKind> Joint<K> for Greater {
    ghost joined = { λ place p q. Ok (rules.greater K.NumberKind.model p q) };

    #[inline(always)]
    fn join(self, p: &Record<K>, q: &Record<K>, _place: usize) -> Result<Record<K>, Fault> {
        Ok(greater(p, q))
    }
}

#[derive(Clone, Copy)]
pub struct Lesser;

impl<K: NumberKind> Joint<K> for Lesser {
    ghost joined = { λ place p q. Ok (rules.lesser K.NumberKind.model p q) };

    #[inline(always)]
    fn join(self, p: &Record<K>, q: &Record<K>, _place: usize) -> Result<Record<K>, Fault> {
        Ok(lesser(p, q))
    }
}
