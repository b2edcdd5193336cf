//! The targets by name.
ghost use Rattle.std.specs.Prelude.{◌≡◌, ◌<◌, ◌++◌, true, [], ◌∷◌, IfOk, IfErr, OnOk, OnErr, IsSome, None};
ghost use Rattle.std.specs.Prelude.{Some, option_map, position, length};
ghost use Rattle.std.specs.Str.{bytes_eq};
ghost use Rattle.comm_targets.specs.Meaning.{Meaning, IsAskable, is_open, is_widget, after_prepare};
ghost use Rattle.comm_targets.specs.Meaning.{after_commit, after_abandon, after_close};
ghost use Rattle.comm_targets.specs.Answers.{MayAnswer, MayRefuse};
ghost use Rattle.comm_targets.specs.declared.staged_event.StagedEvent.{StagedEvent};
ghost use Rattle.comm_core.specs.Machine.{at, has, without, with_at};
ghost use Rattle.comm_core.specs.Step.{holds_widget};
ghost use Rattle.comm_core.specs.Tables.{targets_of, entry_of, TargetsMean};

use crate::comms::Comms;
use comm_targets::{Answer, Event, Held, Kind, Target, TargetFault};
use comm_value::{Dict, Text};
use std::alloc::{AllocError, Global};
use std::marker::Model;
use std::mem;

/// A target under its name.
struct Named<T: Target> {
    name: Text,
    held: Held<T>,
}

/// The targets in the order of registration, seen as what each means, by its name.
pub struct TargetTable<T: Target> {
    all: Vec<Named<T>>,
}

impl<T: Target> Model for TargetTable<T> {
    ghost use Rattle.std.specs.Prelude.{map, vec_len, vec_capacity, ◌-◌};
    ghost use Rattle.comm_core.specs.Tables.{Table};
    ghost use Rattle.comm_targets.specs.Meaning.{Meaning};
    ghost use Rattle.comm_core.specs.Code.{targets_code};

    ghost Value = { Table Meaning };

    ghost coded = { targets_code };

    ghost view = { λ t. record {
      all = map (λ n. (n.name, n.held)) t.all.items;
      room = vec_capacity t.all - vec_len t.all;
    } };
}

impl<T: Target> TargetTable<T> {
    /// No target is registered.
    pub fn new(alloc: Global) -> TargetTable<T>
        ensures { result.all ≡ [] }
    {
        TargetTable {
            all: Vec::new(alloc),
        }
    }

    /// Makes room for one more. Err: memory.
    pub fn reserve(&mut self) -> Result<(), AllocError>
        ensures all { self.new.all ≡ self.old.all }
        ensures room { OnOk result (0 < self.new.room) }
    {
        self.all.reserve(1)
    }

    /// Adds a target, for which there is room.
    pub fn push(&mut self, name: Text, held: Held<T>)
        requires { 0 < self.old.room }
        ensures { self.new.all ≡ self.old.all ++ (name, held) ∷ [] }
    {
        self.all.push_reserved(Named { name, held });
    }

    // Where the name stands.
    fn place_of(&self, name: &Text) -> Option<usize>
        ensures { result ≡ position (λ e. bytes_eq name.now e.0) self.now.all }
    {
        place_in(&self.all, name)
    }

    /// Whether a target has the name.
    pub fn contains(&self, name: &Text) -> bool
        ensures { result ≡ has (targets_of self.now.all) name.now }
    {
        self.place_of(name).is_some()
    }

    /// The name, which shares the memory of its target's own where there is one: the comms of a target have its name
    /// once.
    pub fn shared(&self, name: Text) -> Result<Text, AllocError>
        ensures { IfOk result (λ t. t ≡ name) }
    {
        for named in &self.all {
            if named.name == name {
                return named.name.copy();
            }
        }
        Ok(name)
    }

    /// The kind of the target of this name; None where no target has it.
    pub fn kind_of(&self, name: &Text) -> Option<Kind>
        ensures { result ≡ option_map (λ r. r.kind) (at (targets_of self.now.all) name.now) }
    {
        match self.place_of(name) {
            Some(i) => Some(self.all[i].held.kind()),
            None => None,
        }
    }

    /// Whether a widget has the name.
    pub fn has_widget(&self, name: &Text) -> bool
        ensures { result ≡ holds_widget (at (targets_of self.now.all) name.now) }
    {
        match self.place_of(name) {
            Some(i) => is_widget(self.all[i].held.kind()),
            None => false,
        }
    }

    /// Asks the target of this name, as `Held::prepare`.
    pub fn prepare(
        &mut self,
        name: &Text,
        event: &Event,
        now: Option<&Dict>,
    ) -> Result<Answer, TargetFault>
        requires here { IsSome (at self.old.all name.now) }
        requires unstaged { (m : Meaning) → at self.old.all name.now ≡ Some m → m.staged ≡ None }
        requires askable { (m : Meaning) → at self.old.all name.now ≡ Some m
            → IsAskable m event.now }
        ensures staged { (m : Meaning) → at self.old.all name.now ≡ Some m
            → IfOk result (λ a. self.new.all ≡
            with_at self.old.all name.now (after_prepare m event.now a)) }
        ensures answers { (m : Meaning) → at self.old.all name.now ≡ Some m
            → IfOk result (λ a. MayAnswer m (option_map (λ d. d.now) now.entry) event.now a) }
        ensures unchanged { OnErr result (self.new.all ≡ self.old.all) }
        ensures refuses { (m : Meaning) → at self.old.all name.now ≡ Some m
            → IfErr result (λ f. MayRefuse m (option_map (λ d. d.now) now.entry) event.now f) }
        ensures room { self.new.room ≡ self.old.room }
    {
        match self.place_of(name) {
            Some(i) => self.all[i].held.prepare(event, now),
            None => unreachable!(),
        }
    }

    /// Makes the staged change of the target of this name.
    pub fn commit(&mut self, name: &Text)
        requires staged { (m : Meaning) → at self.old.all name.now ≡ Some m → IsSome m.staged }
        ensures all { (m : Meaning) (s : StagedEvent) → at self.old.all name.now ≡ Some m
            → m.staged ≡ Some s → self.new.all ≡ with_at self.old.all name.now (after_commit m s) }
        ensures room { self.new.room ≡ self.old.room }
    {
        if let Some(i) = self.place_of(name) {
            self.all[i].held.commit();
        }
    }

    /// Drops the staged change of the target of this name.
    pub fn abandon(&mut self, name: &Text)
        requires staged { (m : Meaning) → at self.old.all name.now ≡ Some m → IsSome m.staged }
        ensures all { (m : Meaning) → at self.old.all name.now ≡ Some m
            → self.new.all ≡ with_at self.old.all name.now (after_abandon m) }
        ensures room { self.new.room ≡ self.old.room }
    {
        if let Some(i) = self.place_of(name) {
            self.all[i].held.abandon();
        }
    }

    /// Takes an id out of the target of this name.
    pub fn close(&mut self, name: &Text, id: &Text)
        requires unstaged { (m : Meaning) → at self.old.all name.now ≡ Some m → m.staged ≡ None }
        requires opened { (m : Meaning) → at self.old.all name.now ≡ Some m
            → is_open m id.now ≡ true }
        ensures all { (m : Meaning) → at self.old.all name.now ≡ Some m
            → self.new.all ≡ with_at self.old.all name.now (after_close m id.now) }
        ensures room { self.new.room ≡ self.old.room }
    {
        if let Some(i) = self.place_of(name) {
            self.all[i].held.close(id.as_str());
        }
    }

    /// Puts another target in the place of the one of this name.
    pub fn replace(&mut self, name: &Text, held: Held<T>) -> Held<T>
        requires here { IsSome (at self.old.all name.now) }
        ensures was { at self.old.all name.now ≡ Some result }
        ensures all { self.new.all ≡ with_at self.old.all name.now held }
    {
        match self.place_of(name) {
            Some(i) => mem::replace(&mut self.all[i].held, held),
            None => unreachable!(),
        }
    }

    /// Takes out the target of this name.
    pub fn take(&mut self, name: &Text) -> Option<Held<T>>
        ensures taken { result ≡ at self.old.all name.now }
        ensures all { self.new.all ≡ without self.old.all name.now }
    {
        match self.place_of(name) {
            Some(i) => {
                let Named { name: _name, held } = self.all.remove(i);
                Some(held)
            }
            None => None,
        }
    }

    // Takes out the newest target.
    fn pop(&mut self) -> Option<(Text, Held<T>)>
        ensures all { self.old.all ≡ self.new.all ++ entry_of result }
        ensures none { result ≡ None → self.new.all ≡ [] }
    {
        match self.all.pop() {
            Some(Named { name, held }) => Some((name, held)),
            None => None,
        }
    }

    // How many targets there are.
    fn len(&self) -> usize
        ensures { result ≡ length self.now.all }
    {
        self.all.len()
    }

    /// Closes each comm in its target, then ends the target, and says how many targets it ended. It takes no memory.
    pub fn end_all(mut self, comms: &Comms) -> usize
        requires { TargetsMean self.all comms.now.all }
        ensures { result ≡ length self.all }
    {
        let ended = self.len();
        while let Some((name, mut held)) = self.pop() {
            comms.close_those_of(&name, &mut held);
            held.end();
        }
        let TargetTable { all } = self;
        all.destroy_empty();
        ended
    }
}

fn place_in<T: Target>(all: &[Named<T>], name: &Text) -> Option<usize>
    ensures { result ≡ position (λ n. bytes_eq name.now n.name) all.now }
{
    all.iter().position(|n| name == &n.name)
}

fn is_widget(kind: Kind) -> bool
    ensures { result ≡ is_widget kind }
{
    matches!(kind, Kind::Widget | Kind::WidgetEcho)
}
