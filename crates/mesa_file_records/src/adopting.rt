// Finished files get the ids under which they are adopted.
ghost use Rattle.std.specs.Prelude.{◌≡◌, ◌+◌, ◌<◌, ◌^◌, ◌++◌, [], ◌∷◌, length, map, IfOk, OnOk};
ghost use Rattle.mesa_disk.specs.Files.{files_of};
ghost use Rattle.mesa_engine.specs.mesa_store_spec.Catalog.{meta_at};
ghost use Rattle.mesa_file_records.specs.Adopted.{ArePartsOf, file_in, files_in, files_of_part, files_of_parts, files_under, listed, part_under, parts_under, ref_under, told_under, views_under};

use mesa_catalog::Catalog;
use mesa_disk::{Adoption, Made};
use mesa_file::{FileId, FileRef};
use mesa_list::Items;
use mesa_open_files::{MadeFile, MadeFiles, MadeView, PreparedPart};
use mesa_record::{Files, Part, ViewRef};
use std::alloc::{AllocError, Global};
use std::collections::VecDeque;

/// The files that a turn will adopt so far, and the number of the next one's id.
#[derive(Drop)]
pub struct Adopting<M: Drop> {
    pub alloc: Global,
    pub made: Vec<Adoption<M>>,
    pub next: u64,
}

impl<M: Made> Adopting<M> {
    /// Gives a file the next id.
    pub fn file(&mut self, file: MadeFile<M>) -> Result<FileRef, AllocError>
        requires { self.old.next + 1 < 2 ^ 64 }
        ensures reference { IfOk result (λ f. f ≡ ref_under self.old.next file) }
        ensures made { OnOk result (files_of M.bytes self.new.made.items ≡ files_of M.bytes self.old.made.items ++ told_under M.bytes self.old.next (file ∷ [])) }
        ensures next { OnOk result (self.new.next ≡ self.old.next + 1) }
    {
        let id = FileId::of(self.next);
        let MadeFile {
            made,
            file: mut reference,
        } = file;
        reference.id = id;
        self.made.push(Adoption { made, id })?;
        self.next += 1;
        Ok(reference)
    }

    /// Gives the files of some of a table's rows the next ids, the table's own first.
    pub fn files(&mut self, files: MadeFiles<M>) -> Result<Files, AllocError>
        requires { self.old.next + length (files_in files) < 2 ^ 64 }
        ensures files { IfOk result (λ f. f ≡ files_under self.old.next files) }
        ensures made { OnOk result (files_of M.bytes self.new.made.items ≡ files_of M.bytes self.old.made.items ++ told_under M.bytes self.old.next (files_in files)) }
        ensures next { OnOk result (self.new.next ≡ self.old.next + length (files_in files)) }
    {
        let MadeFiles { file, views } = files;
        let file = self.file(file)?;
        let views = self.views(views)?;
        Ok(Files { file, views })
    }

    // Gives views' files the next ids.
    fn views(&mut self, views: Vec<MadeView<M>>) -> Result<Items<ViewRef>, AllocError>
        requires { self.old.next + length views.items < 2 ^ 64 }
        ensures views { IfOk result (λ refs. refs ≡ views_under self.old.next views.items) }
        ensures made { OnOk result (files_of M.bytes self.new.made.items ≡ files_of M.bytes self.old.made.items ++ told_under M.bytes self.old.next (map file_in views.items)) }
        ensures next { OnOk result (self.new.next ≡ self.old.next + length views.items) }
    {
        let mut refs = Vec::with_capacity(self.alloc, views.len())?;
        let mut left = VecDeque::from_vec(views);
        'views: while let Some(view) = left.pop_front() {
            let number = view.view;
            let file = self.file(view.file)?;
            refs.push(ViewRef { view: number, file })?;
        }
        Ok(Items::from_vec(refs))
    }

    // What a batch brings to a table, if its part has files.
    fn part(&mut self, catalog: &Catalog, part: PreparedPart<M>) -> Result<Option<Part>, AllocError>
        requires there { part.table < length catalog.now.catalogue.tables }
        requires room { self.old.next + length (files_of_part part) < 2 ^ 64 }
        ensures part { IfOk result (λ p. listed p ≡ part_under catalog.now.catalogue self.old.next part.table part.totals part.files) }
        ensures made { OnOk result (files_of M.bytes self.new.made.items ≡ files_of M.bytes self.old.made.items ++ told_under M.bytes self.old.next (files_of_part part)) }
        ensures next { OnOk result (self.new.next ≡ self.old.next + length (files_of_part part)) }
    {
        let PreparedPart {
            table,
            files,
            totals,
        } = part;
        let Some(files) = files else {
            return Ok(None);
        };
        let epoch = catalog.evolving(table).epoch();
        let files = self.files(files)?;
        Ok(Some(Part {
            table,
            epoch,
            files,
            totals,
        }))
    }

    // What a batch brings to each table.
    pub(crate) fn parts(
        &mut self,
        catalog: &Catalog,
        parts: Vec<PreparedPart<M>>,
    ) -> Result<Items<Part>, AllocError>
        requires there { ArePartsOf catalog.now.catalogue parts.items }
        requires room { self.old.next + length (files_of_parts parts.items) < 2 ^ 64 }
        ensures parts { IfOk result (λ made. made ≡ parts_under catalog.now.catalogue self.old.next parts.items) }
        ensures made { OnOk result (files_of M.bytes self.new.made.items ≡ files_of M.bytes self.old.made.items ++ told_under M.bytes self.old.next (files_of_parts parts.items)) }
        ensures next { OnOk result (self.new.next ≡ self.old.next + length (files_of_parts parts.items)) }
    {
        let mut all = Vec::with_capacity(self.alloc, parts.len())?;
        let mut left = VecDeque::from_vec(parts);
        'parts: while let Some(part) = left.pop_front() {
            if let Some(part) = self.part(catalog, part)? {
                all.push(part)?;
            }
        }
        Ok(Items::from_vec(all))
    }
}
