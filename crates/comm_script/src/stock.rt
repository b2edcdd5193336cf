ghost use Rattle.std.specs.Prelude.{◌≡◌, ◌<◌, ◌++◌, [], ◌∷◌, true, IfSome, IfNone, IfErr, OnOk, OnErr, OnSome, map};
ghost use Rattle.std.specs.Prelude.{option_map};
ghost use Rattle.comm_targets.specs.Meaning.{Meaning, IsIdle};
ghost use Rattle.comm_core.specs.Tables.{registered_of};
ghost use Rattle.comm_script.specs.Stock.{has_kind, first_of, rest_of, shelved, AreIdle, IsPlace, IsWithout};

use comm_targets::{Kind, Target};
use std::alloc::AllocFailed;
use std::marker::Model;

/// A kind of target that a script can register, by the word of its `kind`.
#[derive(Clone, Copy, Debug, PartialEq, Eq, Drop)]
pub enum StockKind {
    /// `echo`
    Echo,
    /// `counter`
    Counter,
    /// `widget`
    Widget,
    /// `widget_echo`
    WidgetEcho,
}

fn has_kind(wanted: StockKind, kind: Kind) -> bool
    ensures { result ≡ has_kind wanted kind }
{
    match (wanted, kind) {
        (StockKind::Echo, Kind::Echo) => true,
        (StockKind::Counter, Kind::Counter) => true,
        (StockKind::Widget, Kind::Widget) => true,
        (StockKind::WidgetEcho, Kind::WidgetEcho) => true,
        _ => false,
    }
}

// Where the first target of the kind stands.
fn place_in<T: Target>(targets: &[T], kind: StockKind) -> Option<usize>
    ensures found { IfSome result (λ i. IsPlace T.means kind targets.now i) }
    ensures none { IfNone result (IsWithout T.means kind targets.now) }
{
    for (i, target) in targets.iter().enumerate() {
        if has_kind(kind, target.kind()) {
            return Some(i);
        }
    }
    None
}

/// The targets that scripts register, each of them idle.
#[derive(Drop)]
pub struct Stock<T: Target> {
    targets: Vec<T>,
}

impl<T: Target> Model for Stock<T> {
    ghost use Rattle.std.specs.Prelude.{map, vec_len, vec_capacity, ◌-◌};
    ghost use Rattle.comm_script.specs.Stock.{Shelf, shelved, AreIdle};

    ghost Value = { Shelf };

    ghost view = { λ s. record {
      targets = shelved (map T.means s.targets.items);
      room = vec_capacity s.targets - vec_len s.targets;
    } };

    ghost invariant = { λ s. AreIdle (map T.means s.targets.items) };
}

impl<T: Target> Stock<T> {
    /// The stock of these targets, to be taken in their order.
    pub fn new(targets: Vec<T>) -> Stock<T>
        requires { AreIdle (map T.means targets.items) }
        ensures { result.targets ≡ shelved (map T.means targets.items) }
    {
        Stock { targets }
    }

    /// Takes out the first target of the kind, so that there is room to put it back; None where none is left.
    pub fn take(&mut self, kind: StockKind) -> Option<T>
        ensures taken { option_map (λ t. registered_of (T.means t)) result
            ≡ first_of kind self.old.targets }
        ensures targets { self.new.targets ≡ rest_of kind self.old.targets }
        ensures idle { IfSome result (λ t. IsIdle (T.means t)) }
        ensures room { OnSome result (0 < self.new.room) }
    {
        match place_in(&self.targets, kind) {
            Some(i) => Some(self.targets.remove(i)),
            None => None,
        }
    }

    /// Puts a target at the end. It takes no memory.
    pub fn put_back(&mut self, target: T)
        requires idle { IsIdle (T.means target) }
        requires room { 0 < self.old.room }
        ensures { self.new.targets ≡ self.old.targets ++ registered_of (T.means target) ∷ [] }
    {
        self.targets.push_reserved(target);
    }
}

/// Puts an idle target at the end of a stock. Err: memory; the stock stays as it was, and the target comes back.
pub fn push_target<T: Target>(stock: &mut Vec<T>, target: T) -> Result<(), AllocFailed<T>>
    requires { IsIdle (T.means target) }
    ensures added { OnOk result (stock.new.items ≡ stock.old.items ++ target ∷ []) }
    ensures idle { AreIdle (map T.means stock.old.items)
        → OnOk result (AreIdle (map T.means stock.new.items)) }
    ensures unchanged { OnErr result (stock.new.items ≡ stock.old.items) }
    ensures back { IfErr result (λ refused. refused.value ≡ target) }
{
    stock.push(target)
}

/// Two boxed targets of each kind, in the order of the words `echo`, `counter`, `widget` and `widget_echo`: the stock
/// of a program.
///
/// It stands in a function whose error an `AllocError` and an `AllocFailed` convert into, in a file that imports
/// `Counter`, `Echo`, `Target` and `WidgetTarget`. A function that returned the boxes would hide which targets they
/// have.
#[macro_export]
macro_rules! boxed_stock {
    ($alloc:expr) => {{
        let mut stock = Vec::new($alloc);
        let echo: Box<dyn Target> = Box::new($alloc, Echo::new($alloc))?;
        $crate::push_target(&mut stock, echo)?;
        let other_echo: Box<dyn Target> = Box::new($alloc, Echo::new($alloc))?;
        $crate::push_target(&mut stock, other_echo)?;
        let counter: Box<dyn Target> = Box::new($alloc, Counter::new($alloc))?;
        $crate::push_target(&mut stock, counter)?;
        let other_counter: Box<dyn Target> = Box::new($alloc, Counter::new($alloc))?;
        $crate::push_target(&mut stock, other_counter)?;
        let widget: Box<dyn Target> = Box::new($alloc, WidgetTarget::new($alloc))?;
        $crate::push_target(&mut stock, widget)?;
        let other_widget: Box<dyn Target> = Box::new($alloc, WidgetTarget::new($alloc))?;
        $crate::push_target(&mut stock, other_widget)?;
        let echoing: Box<dyn Target> = Box::new($alloc, WidgetTarget::with_echo($alloc))?;
        $crate::push_target(&mut stock, echoing)?;
        let other_echoing: Box<dyn Target> = Box::new($alloc, WidgetTarget::with_echo($alloc))?;
        $crate::push_target(&mut stock, other_echoing)?;
        stock
    }};
}
