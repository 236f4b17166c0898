//! What a journal doesn't hold yet.

ghost use Rattle.std.specs.Prelude.{◌≡◌, true, false, IfOk, OnErr};
ghost use Rattle.register.specs.Marks.{ArePaths, all_marks, no_marks, run_marks};
ghost use Rattle.register.specs.Marks.{taken_back, with_path};

use containers::text_maps::TextMap;
use object_ids::DomainPath;
use std::alloc::{AllocError, Global};
use std::marker::Model;

/// Which records of a register are to be written.
#[derive(Drop)]
pub(crate) struct Marks {
    alloc: Global,
    run: bool,
    next: bool,
    all: bool,
    paths: TextMap<bool>,
}

impl Model for Marks {
    ghost use Rattle.std.specs.Prelude.{ℕ, Bool, refl};
    ghost use Rattle.std.specs.FinMap as map;
    ghost use Rattle.std.specs.Coded.{code_by, coded×, coded_ℕ, coded_bool, coded_list};
    ghost use Rattle.containers.specs.TextMaps.Keyed.{text_order};
    ghost use Rattle.register.specs.Marks.{ArePaths, Marked};

    ghost Value = { Marked };

    ghost coded = { code_by (Bool × (Bool × (Bool × map.FinMap text_order Bool)))
        (coded× coded_bool (coded× coded_bool (coded× coded_bool (map.code (coded_list coded_ℕ) coded_bool))))
        (λ m. (m.run, (m.next, (m.all, m.paths))))
        (λ p. record { run = p.0; next = p.1.0; all = p.1.1.0; paths = p.1.1.1 })
        (λ _. refl) };

    ghost view = { λ a. record { run = a.run; next = a.next; all = a.all; paths = a.paths } };

    ghost invariant = { λ a. ArePaths a.paths };
}

impl Marks {
    /// Those of a register that was made. Takes no memory.
    pub(crate) fn all(alloc: Global) -> Marks
        ensures { result ≡ all_marks }
    {
        Marks {
            alloc,
            run: true,
            next: true,
            all: true,
            paths: TextMap::new(alloc),
        }
    }

    /// Those of a register that was installed. Takes no memory.
    pub(crate) fn of_run(alloc: Global) -> Marks
        ensures { result ≡ run_marks }
    {
        Marks {
            alloc,
            run: true,
            next: false,
            all: false,
            paths: TextMap::new(alloc),
        }
    }

    /// Whether the record of the run is to be written.
    pub(crate) fn has_run(&self) -> bool
        ensures { result ≡ self.now.run }
    {
        self.run
    }

    /// Whether that of the next domain's number is.
    pub(crate) fn has_next(&self) -> bool
        ensures { result ≡ self.now.next }
    {
        self.next
    }

    /// Whether those of all nodes are.
    pub(crate) fn has_all(&self) -> bool
        ensures { result ≡ self.now.all }
    {
        self.all
    }

    /// The paths whose records are.
    pub(crate) fn paths(&self) -> &TextMap<bool>
        ensures value { result.now ≡ self.now.paths }
        ensures paths { ArePaths self.now.paths }
    {
        &self.paths
    }

    /// Marks a path, and tells whether it wasn't marked. An error leaves all as it was.
    pub(crate) fn mark(&mut self, path: &DomainPath) -> Result<bool, AllocError>
        ensures ok { IfOk result (λ _. self.new ≡ with_path self.old path.now) }
        ensures back { IfOk result (λ fresh. taken_back self.new path.now fresh ≡ self.old) }
        ensures err { OnErr result (self.new ≡ self.old) }
    {
        let text = path.text();
        let fresh = !self.paths.contains_key(text);
        self.paths.put_copy(text, true)?;
        Ok(fresh)
    }

    /// Takes the mark of a path back, where it is a new one.
    pub(crate) fn take_back(&mut self, path: &DomainPath, fresh: bool)
        ensures { self.new ≡ taken_back self.old path.now fresh }
    {
        if fresh {
            let _ = self.paths.remove(path.text());
        }
    }

    /// Marks the next domain's number.
    pub(crate) fn mark_next(&mut self)
        ensures { self.new ≡ record self.old { next = true } }
    {
        self.next = true;
    }

    /// Takes the mark of the run away.
    pub(crate) fn clear_run(&mut self)
        ensures { self.new ≡ record self.old { run = false } }
    {
        self.run = false;
    }

    /// Takes all marks away.
    pub(crate) fn clear(&mut self)
        ensures { self.new ≡ no_marks }
    {
        self.run = false;
        self.next = false;
        self.all = false;
        self.paths = TextMap::new(self.alloc);
    }
}
