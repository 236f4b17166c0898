//! An array and the chunks that are dirty.

ghost use Rattle.std.specs.Prelude.{◌≡◌, ◌≤◌, ◌+◌, ◌*◌, ◌↔◌, ℕ, List, [], All, IsSome, length, option_map, false};
ghost use Rattle.std.specs.Prelude.{Some, None, Err, IfOk, IfSome, IsTrue, OnOk, OnErr};
ghost use Rattle.hdf_types.specs.Reading.{size_of};
ghost use Rattle.hdf_types.specs.Types.{IsSoundType};
ghost use Rattle.hdf_types.specs.Views.{elem as kind_of};
ghost use Rattle.hdf_values.specs.Elements.{IsEncoded};
ghost use Rattle.hdf_values.specs.Nested.{AreEncoded};
ghost use Rattle.shapes.specs.RowMajor.{cell_count};
ghost use Rattle.shapes.specs.Shapes.{IsSound, IsResized, LiesIn, count_of, dims_of};
ghost use Rattle.shapes.specs.declared.TheConstants.{MAX_EXTENT};
ghost use Rattle.chunk_layout.specs.Layouts.{Fits};
ghost use Rattle.hyperslab.specs.Selected.{IsSlab, SlabIn, slab_cells};
ghost use Rattle.point_select.specs.declared.TheConstants.{MAX_POINTS};
ghost use Rattle.chunk_store.specs.Additions.{Adds};
ghost use Rattle.chunk_store.specs.Cells.{put};
ghost use Rattle.chunk_store.specs.Grids.{IsWhole, all_fill, resized_to, reads, with_dims, writes};
ghost use Rattle.chunk_store.specs.Picked.{PicksIn, cells_from, picked};
ghost use Rattle.chunk_store.specs.Indexes.{IsIndex};
ghost use Rattle.chunk_store.specs.Marks.{Stored, AreIndexes, IsTracked, IsNextDirty, IsNextChunk, IsChunkOf};
ghost use Rattle.chunk_store.specs.Marks.{MarksResized, MarksWritten, with_chunk, body_of, state, in_grid};
ghost use Rattle.chunk_store.specs.Marks.{cleared, cut};
ghost use Rattle.chunk_store.specs.declared.array.InstallFault.TheVariants.{BadChunk, NoMemory};

use crate::access;
use crate::additions::new_in_points;
use crate::buffers::{Chunks, Frame, chunk_size, put_chunk};
use crate::changes::Changes;
use crate::chunks::{cell_number, has_cell, is_blank_outside};
use crate::elements::{are_elements, blank_bytes};
use crate::marks::{clear_flags, first_dirty, first_known, first_listed};
use crate::picks::Picks;
use crate::truncating::truncate;
use chunk_layout::Layout;
use hdf_types::ElemType;
use hyperslab::Slab;
use point_select::Points;
use shapes::{Dims, Shape, resized};
use std::alloc::{AllocError, Global};
use std::collections::BTreeMap;
use std::marker::Model;

/// An array, and which of its chunks are dirty: they changed since they were last taken as clean.
#[derive(Drop)]
pub struct Array {
    elem: ElemType,
    shape: Shape,
    given: bool,
    frame: Frame,
    chunks: Chunks,
    changes: Changes,
}

impl Model for Array {
    ghost use Rattle.hdf_types.specs.Views.{elem as kind_of};
    ghost use Rattle.chunk_store.specs.Changes.{AreListed};
    ghost use Rattle.chunk_store.specs.Parts.{IsBuffered, stored_in};
    ghost use Rattle.chunk_store.specs.Marks.{Stored, coded_stored};

    ghost Value = { Stored };

    ghost coded = { coded_stored };

    ghost view = { λ a. stored_in (kind_of a.elem) a.shape a.given a.frame a.chunks };

    ghost invariant = { λ a. IsBuffered (kind_of a.elem) a.shape a.given a.frame a.chunks
        × AreListed a.shape a.frame a.chunks a.changes };
}

/// Why a chunk was not installed.
#[derive(Clone, Copy, Debug, PartialEq, Eq)]
pub enum InstallFault {
    /// The bytes are those of no chunk of the array.
    BadChunk,
    /// There was no memory.
    NoMemory,
}

impl From<AllocError> for InstallFault {
    ghost from_gives = { λ _ e. e ≡ NoMemory };

    fn from(_error: AllocError) -> InstallFault {
        InstallFault::NoMemory
    }
}

impl Array {
    /// An array in which each cell has the fill, or zero where none is given. No chunk of it is dirty.
    ///
    /// # Errors
    ///
    /// Only where memory runs out.
    pub fn new(
        alloc: Global,
        elem: ElemType,
        shape: Shape,
        layout: Layout,
        fill: Option<Vec<u8>>,
    ) -> Result<Array, AllocError>
        requires kind { IsSoundType (kind_of elem) }
        requires shape { IsSound shape }
        requires layout { Fits (size_of (kind_of elem)) (dims_of shape) layout.chunk }
        requires fill { IfSome fill (λ v. IsEncoded (kind_of elem) v.items) }
        ensures made { IfOk result (λ a. a.grid
            ≡ all_fill (kind_of elem) shape layout.chunk (option_map (λ v. v.items) fill)) }
        ensures marks { IfOk result (λ a. (i : List ℕ) → state a i ≡ None) }
        ensures tracked { IfOk result (λ a. IsTracked (λ _. []) a) }
    {
        let size = elem.size() as usize;
        let given = fill.is_some();
        let blank = blank_bytes(alloc, &elem, fill)?;
        let frame = Frame {
            layout,
            size,
            blank,
        };
        Ok(Array {
            elem,
            shape,
            given,
            frame,
            chunks: BTreeMap::new(alloc),
            changes: Changes::new(alloc),
        })
    }

    /// The type of its elements.
    pub fn elem(&self) -> &ElemType
        ensures { kind_of result.now ≡ self.now.grid.kind }
    {
        &self.elem
    }

    /// The shape.
    pub fn shape(&self) -> &Shape
        ensures { result.now ≡ self.now.grid.shape }
    {
        &self.shape
    }

    /// The layout.
    pub fn layout(&self) -> &Layout
        ensures same { result.now.chunk ≡ self.now.grid.chunk }
        ensures fits { Fits (size_of self.now.grid.kind)
            (dims_of self.now.grid.shape) self.now.grid.chunk }
    {
        &self.frame.layout
    }

    /// The fill, where one was given.
    pub fn fill(&self) -> Option<&[u8]>
        ensures { option_map (λ v. v.now) result ≡ self.now.grid.fill }
    {
        if self.given {
            Some(self.frame.blank.as_slice())
        } else {
            None
        }
    }

    /// What is true of every array: all parts are sound, each cell has an element's bytes, and the index of each chunk
    /// that is known, also of one that now lies outside, has a number of 32 bits for each axis.
    pub fn is_whole(&self)
        ensures grid { IsWhole self.now.grid }
        ensures indexes { AreIndexes self.now }
    {
        let _chunks = &self.chunks;
    }

    /// The bytes of the cells of a selection, in row-major order.
    ///
    /// # Errors
    ///
    /// Only where memory runs out.
    pub fn read_slab(&self, alloc: Global, slab: &Slab) -> Result<Vec<u8>, AllocError>
        requires slab { IsSlab slab.now }
        requires inside { SlabIn slab.now self.now.grid.shape }
        ensures bytes { IfOk result (λ v. v.items
            ≡ reads self.now.grid (slab_cells slab.now self.now.grid.shape)) }
        ensures encoded { IfOk result (λ v.
            AreEncoded self.now.grid.kind (length (slab_cells slab.now self.now.grid.shape)) v.items) }
    {
        self.read(alloc, &Picks::Slab(*slab))
    }

    /// The bytes of points, in their order.
    ///
    /// # Errors
    ///
    /// Only where memory runs out.
    pub fn read_points(&self, alloc: Global, points: &Points) -> Result<Vec<u8>, AllocError>
        requires few { length points.now ≤ MAX_POINTS }
        requires inside { All (λ at. LiesIn at self.now.grid.shape) points.now }
        ensures bytes { IfOk result (λ v. v.items ≡ reads self.now.grid points.now) }
        ensures encoded { IfOk result (λ v. AreEncoded self.now.grid.kind
            (length points.now) v.items) }
    {
        self.read(alloc, &Picks::Points(points.as_slice()))
    }

    /// The bytes of `many` cells from a linear index on, in row-major order.
    ///
    /// # Errors
    ///
    /// Only where memory runs out.
    pub fn read_places(&self, alloc: Global, from: u64, many: u64) -> Result<Vec<u8>, AllocError>
        requires { from + many ≤ count_of self.now.grid.shape }
        ensures bytes { IfOk result (λ v. v.items
            ≡ reads self.now.grid (cells_from from many self.now.grid.shape)) }
        ensures encoded { IfOk result (λ v. AreEncoded self.now.grid.kind many v.items) }
    {
        let _none = Dims::new();
        self.read(alloc, &Picks::Places { from, many })
    }

    /// Writes elements into the cells of a selection, in row-major order.
    ///
    /// # Errors
    ///
    /// Only where memory runs out; then the array is as it was.
    pub fn write_slab(&mut self, alloc: Global, slab: &Slab, bytes: &[u8]) -> Result<(), AllocError>
        requires slab { IsSlab slab.now }
        requires inside { SlabIn slab.now self.old.grid.shape }
        requires encoded { AreEncoded self.old.grid.kind
            (length (slab_cells slab.now self.old.grid.shape)) bytes.now }
        ensures done { OnOk result (self.new.grid
            ≡ writes self.old.grid (slab_cells slab.now self.old.grid.shape) bytes.now) }
        ensures marks { OnOk result (MarksWritten self.old
            (slab_cells slab.now self.old.grid.shape) self.new) }
        ensures kept { OnErr result (self.new.grid ≡ self.old.grid) }
        ensures unmarked { OnErr result ((i : List ℕ) → state self.new i ≡ state self.old i) }
        ensures tracked { (held : List ℕ → List ℕ) → IsTracked held self.old
            → IsTracked held self.new }
    {
        self.write(alloc, &Picks::Slab(*slab), bytes)
    }

    /// Writes elements at points in turn, so that of a repeated point the last one counts.
    ///
    /// # Errors
    ///
    /// Only where memory runs out; then the array is as it was.
    pub fn write_points(
        &mut self,
        alloc: Global,
        points: &Points,
        bytes: &[u8],
    ) -> Result<(), AllocError>
        requires few { length points.now ≤ MAX_POINTS }
        requires inside { All (λ at. LiesIn at self.old.grid.shape) points.now }
        requires encoded { AreEncoded self.old.grid.kind (length points.now) bytes.now }
        ensures done { OnOk result (self.new.grid ≡ writes self.old.grid points.now bytes.now) }
        ensures marks { OnOk result (MarksWritten self.old points.now self.new) }
        ensures kept { OnErr result (self.new.grid ≡ self.old.grid) }
        ensures unmarked { OnErr result ((i : List ℕ) → state self.new i ≡ state self.old i) }
        ensures tracked { (held : List ℕ → List ℕ) → IsTracked held self.old
            → IsTracked held self.new }
    {
        self.write(alloc, &Picks::Points(points.as_slice()), bytes)
    }

    /// Writes elements into the cells from a linear index on, in row-major order.
    ///
    /// # Errors
    ///
    /// Only where memory runs out; then the array is as it was.
    pub fn write_places(&mut self, alloc: Global, from: u64, bytes: &[u8]) -> Result<(), AllocError>
        requires { (many : ℕ) × (from + many ≤ count_of self.old.grid.shape)
            × AreEncoded self.old.grid.kind many bytes.now }
        ensures done { OnOk result ((many : ℕ) → AreEncoded self.old.grid.kind many bytes.now
            → self.new.grid
            ≡ writes self.old.grid (cells_from from many self.old.grid.shape) bytes.now) }
        ensures marks { OnOk result ((many : ℕ) → AreEncoded self.old.grid.kind many bytes.now
            → MarksWritten self.old (cells_from from many self.old.grid.shape) self.new) }
        ensures kept { OnErr result (self.new.grid ≡ self.old.grid) }
        ensures unmarked { OnErr result ((i : List ℕ) → state self.new i ≡ state self.old i) }
        ensures tracked { (held : List ℕ → List ℕ) → IsTracked held self.old
            → IsTracked held self.new }
    {
        let many = self.elements_in(bytes);
        self.write(alloc, &Picks::Places { from, many }, bytes)
    }

    /// How many bytes a chunk has.
    pub fn chunk_size(&self) -> u64
        ensures { result ≡ cell_count self.now.grid.chunk * size_of self.now.grid.kind }
    {
        chunk_size(&self.frame)
    }

    /// How many chunks of a selection's cells are not known yet, so that a write would add them.
    ///
    /// # Errors
    ///
    /// Only where memory runs out.
    pub fn slab_adds(&self, alloc: Global, slab: &Slab) -> Result<u64, AllocError>
        requires slab { IsSlab slab.now }
        requires inside { SlabIn slab.now self.now.grid.shape }
        ensures { IfOk result (Adds self.now (slab_cells slab.now self.now.grid.shape)) }
    {
        let new = access::new_selected(alloc, &self.chunks, &self.frame, &self.shape, slab)?;
        Ok(new.len() as u64)
    }

    /// How many chunks of points are not known yet, so that a write would add them; each is counted once.
    ///
    /// # Errors
    ///
    /// Only where memory runs out.
    pub fn points_add(&self, alloc: Global, points: &Points) -> Result<u64, AllocError>
        requires { All (λ at. LiesIn at self.now.grid.shape) points.now }
        ensures { IfOk result (Adds self.now points.now) }
    {
        let new = new_in_points(alloc, &self.chunks, &self.frame, points.as_slice())?;
        Ok(new.len() as u64)
    }

    /// Takes other dims. Cells outside them are lost, and new ones have the fill. It takes no memory.
    pub fn resize(&mut self, dims: &Dims)
        requires fits { IsResized self.old.grid.shape dims.now
            (with_dims self.old.grid.shape dims.now) }
        requires small { All (λ n. n ≤ MAX_EXTENT) dims.now }
        ensures done { self.new.grid ≡ resized_to self.old.grid dims.now }
        ensures marks { MarksResized self.old dims.now self.new }
        ensures tracked { (held : List ℕ → List ℕ) → IsTracked held self.old
            → IsTracked held self.new }
    {
        let Ok(shape) = resized(&self.shape, dims) else {
            unreachable!();
        };
        truncate(&mut self.chunks, &self.frame, &self.shape, &shape);
        self.shape = shape;
        self.changes.all = true;
    }

    /// The first dirty chunk behind one, or of all, in row-major order.
    pub fn next_dirty(&self, after: Option<&Dims>) -> Option<Dims>
        ensures next { IsNextDirty self.now (option_map (λ d. d.now) after.entry) result }
        ensures known { IfSome result (λ i. IsSome (state self.now i)) }
        ensures index { IfSome result (λ i. IsIndex self.now.grid.chunk i) }
    {
        if self.changes.all {
            first_dirty(&self.chunks, after)
        } else {
            first_listed(&self.chunks, &self.changes.listed, after)
        }
    }

    /// The first chunk behind one, or of all, of which anything is known, dirty or not, in row-major order.
    pub fn next_chunk(&self, after: Option<&Dims>) -> Option<Dims>
        ensures next { IsNextChunk self.now (option_map (λ d. d.now) after.entry) result }
        ensures known { IfSome result (λ i. IsSome (state self.now i)) }
        ensures index { IfSome result (λ i. IsIndex self.now.grid.chunk i) }
    {
        first_known(&self.chunks, after)
    }

    /// The bytes of a chunk that is known, in row-major order, with the fill in each cell outside the array; no byte
    /// where the chunk lies wholly outside.
    pub fn chunk_bytes(&self, index: &Dims) -> &[u8]
        requires known { IsSome (state self.now index.now) }
        ensures { result.now ≡ body_of self.now.grid index.now }
    {
        if !has_cell(&self.frame.layout, &self.shape, index) {
            return &[];
        }
        let Some(held) = self.chunks.get(index) else {
            unreachable!();
        };
        held.bytes.as_slice()
    }

    /// Takes each chunk as clean, and forgets those outside the array. It takes no memory.
    pub fn clear_dirty(&mut self)
        ensures same { self.new.grid ≡ self.old.grid }
        ensures marks { (i : List ℕ) → state self.new i
            ≡ cleared (in_grid self.old.grid i) (state self.old i) }
        ensures tracked { (held : List ℕ → List ℕ) → IsTracked held self.old
            → IsTracked (cut held self.old) self.new }
    {
        clear_flags(
            &mut self.chunks,
            &mut self.changes,
            &self.frame,
            &self.shape,
        );
    }

    /// Puts in the bytes of a chunk, which then is clean.
    ///
    /// # Errors
    ///
    /// `BadChunk` where the index names no chunk of the array, the bytes are not so many elements, or a cell outside
    /// the array has not the fill; else `NoMemory`. After either the array is as before.
    pub fn install(&mut self, index: &Dims, bytes: Vec<u8>) -> Result<(), InstallFault>
        ensures done { OnOk result (self.new.grid
            ≡ with_chunk self.old.grid index.now bytes.items) }
        ensures marks { OnOk result ((i : List ℕ)
            → state self.new i ≡ put (state self.old) index.now (Some false) i) }
        ensures bad { (result ≡ Err BadChunk) ↔ (IsChunkOf self.old.grid index.now bytes.items
            → ⊥) }
        ensures whole { OnOk result (IsChunkOf self.old.grid index.now bytes.items) }
        ensures kept { OnErr result (self.new.grid ≡ self.old.grid) }
        ensures unmarked { OnErr result ((i : List ℕ) → state self.new i ≡ state self.old i) }
        ensures tracked { OnOk result ((held : List ℕ → List ℕ) → IsTracked held self.old
            → IsTracked (put held index.now bytes.items) self.new) }
    {
        if !self.is_chunk(index, bytes.as_slice()) {
            return Err(InstallFault::BadChunk);
        }
        put_chunk(&mut self.chunks, index, bytes)?;
        Ok(())
    }

    /// Whether bytes are those of a chunk of the array, with the fill in each cell outside.
    fn is_chunk(&self, index: &Dims, bytes: &[u8]) -> bool
        ensures { IsTrue result ↔ IsChunkOf self.now.grid index.now bytes.now }
    {
        if !has_cell(&self.frame.layout, &self.shape, index) {
            return false;
        }
        if !are_elements(&self.elem, cell_number(&self.frame.layout), bytes) {
            return false;
        }
        is_blank_outside(
            self.frame.blank.as_slice(),
            &self.frame.layout,
            &self.shape,
            index,
            bytes,
        )
    }

    /// How many elements bytes are.
    fn elements_in(&self, bytes: &[u8]) -> u64
        ensures { (many : ℕ) → AreEncoded self.now.grid.kind many bytes.now → result ≡ many }
    {
        (bytes.len() / self.frame.size) as u64
    }

    fn read(&self, alloc: Global, picks: &Picks) -> Result<Vec<u8>, AllocError>
        requires { PicksIn picks.now self.now.grid.shape }
        ensures bytes { IfOk result (λ v. v.items
            ≡ reads self.now.grid (picked picks.now self.now.grid.shape)) }
        ensures encoded { IfOk result (λ v. AreEncoded self.now.grid.kind
            (length (picked picks.now self.now.grid.shape)) v.items) }
    {
        let bytes = access::read(alloc, &self.chunks, &self.frame, &self.shape, picks)?;
        Ok(bytes)
    }

    fn write(&mut self, alloc: Global, picks: &Picks, bytes: &[u8]) -> Result<(), AllocError>
        requires picks { PicksIn picks.now self.old.grid.shape }
        requires encoded { AreEncoded self.old.grid.kind
            (length (picked picks.now self.old.grid.shape)) bytes.now }
        ensures done { OnOk result (self.new.grid
            ≡ writes self.old.grid (picked picks.now self.old.grid.shape) bytes.now) }
        ensures marks { OnOk result (MarksWritten self.old
            (picked picks.now self.old.grid.shape) self.new) }
        ensures kept { OnErr result (self.new.grid ≡ self.old.grid) }
        ensures unmarked { OnErr result ((i : List ℕ) → state self.new i ≡ state self.old i) }
        ensures tracked { (held : List ℕ → List ℕ) → IsTracked held self.old
            → IsTracked held self.new }
    {
        access::hold(
            alloc,
            &mut self.chunks,
            &mut self.changes,
            &self.frame,
            &self.shape,
            picks,
        )?;
        access::write(&mut self.chunks, &self.frame, &self.shape, picks, bytes);
        Ok(())
    }
}
