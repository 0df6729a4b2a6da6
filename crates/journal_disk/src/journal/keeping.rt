//! A journal as a keeper.

use super::Journal;
use crate::disk::Disk;
use crate::fault::RecordError;
use crate::keeper::Keeper;
use std::alloc::Global;
use sysapi_base::{Failed, Memory};

impl<D: Disk> Keeper for Journal<D> {
    ghost use Rattle.std.specs.Prelude.{◌+◌};
    ghost use Rattle.journal_disk.specs.Journal.{told, doubted, reading_of, figures_of, place_of, record_images, record_images_since};
    ghost use Rattle.journal_disk.specs.JournalLaws.{no_doubted};

    ghost figures = { figures_of };

    ghost costs = { λ n. n + 5 };

    ghost places = { place_of };

    ghost records = { told D.reading };

    ghost reading = { reading_of D.reading };

    ghost doubted = { doubted D.reading };

    ghost images = { record_images D.images };

    ghost moment = { λ j. D.moment j.disk };

    ghost images_since = { record_images_since D.images_since };

    ghost faults = { λ j. D.faults j.disk };

    ghost IsSteady = { λ j. D.IsSteady j.disk };

    ghost no_doubt = { λ j is. no_doubted D.reading j is };

    ghost counts_now = { λ j t image le left. (left.0, D.counts_now j.disk t left.0 le left.1, left.2) };

    ghost only_now = { λ j image left. (left.0, D.only_now j.disk left.0 left.1, left.2) };

    fn repository(&self) -> u64 {
        self.repository()
    }

    fn place(&self, i: u64) -> u64 {
        self.place(i)
    }

    fn count(&self) -> u64 {
        self.count()
    }

    fn used(&self) -> u64 {
        self.used()
    }

    fn room(&self) -> u64 {
        self.room()
    }

    fn has_doubt(&self) -> bool {
        self.has_doubt()
    }

    fn cost(&self, len: u32) -> u64 {
        self.cost(len)
    }

    fn reserve(&mut self, len: u32) -> Result<(), Memory> {
        self.reserve(len)
    }

    fn append(&mut self, bytes: &[u8]) -> Result<(), Failed> {
        self.append(bytes)
    }

    fn settle(&mut self) -> Result<(), Failed> {
        self.settle()
    }

    fn record(&mut self, alloc: Global, i: u64) -> Result<Vec<u8>, RecordError> {
        self.record(alloc, i)
    }
}
