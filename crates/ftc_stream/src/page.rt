//! A writer with what it writes to.

ghost use Rattle.std.specs.Prelude.{◌≡◌, ◌-◌, length, map, refl};
ghost use Rattle.std.proofs.Common.{ap, ◌∙◌};
ghost use Rattle.ftc_stream.specs.Pages.{Went, Broke};
ghost use Rattle.ftc_stream.specs.TurningLaws.{went_stays, went_on_page, went_breaks_page};

use crate::fault::PutFault;
use crate::flow::Writer;
use crate::sink::Sink;
use crate::taps::Taps;
use ftc_outside::{Desk, Tap};
use ftc_pcap::Capture;
use std::alloc::Global;

/// A writer, the file of a desk to which it appends, and the taps that it tells.
#[derive(Drop)]
pub struct Page<'a, D> {
    pub alloc: Global,
    pub writer: Writer,
    pub capture: &'a Capture,
    pub out: &'a str,
    pub desk: &'a mut D,
    pub taps: &'a mut Taps,
}

impl<'a, D: Desk> Sink for Page<'a, D> {
    ghost kept = { λ old new. (new.desk.ghost_name ≡ old.desk.ghost_name) ×
        (new.taps.ghost_name ≡ old.taps.ghost_name) × (new.capture ≡ old.capture) × (new.out ≡ old.out) };

    ghost went = { λ old new. (new.capture ≡ old.capture) × (new.out ≡ old.out) ×
        Went D.tells D.sound D.file D.faults old.capture.now old.out.now old.writer new.writer old.desk.now new.desk.now
        (map (λ tap. (Tap-box tap).face tap.value) old.taps.now.list.items)
        (map (λ tap. (Tap-box tap).face tap.value) new.taps.now.list.items) };

    ghost broke = { λ old new fault. (new.capture ≡ old.capture) × (new.out ≡ old.out) ×
        Broke D.tells D.sound D.file D.faults old.capture.now old.out.now fault old.writer new.writer old.desk.now
        new.desk.now
        (map (λ tap. (Tap-box tap).face tap.value) old.taps.now.list.items)
        (map (λ tap. (Tap-box tap).face tap.value) new.taps.now.list.items) };

    ghost room = { λ page. page.writer.room - length page.writer.items };

    ghost same = { λ page. (refl, refl, refl, refl) };

    ghost on = { λ first between last one other. (other.0 ∙ one.0, other.1 ∙ one.1, other.2 ∙ one.2, other.3 ∙ one.3) };

    ghost stays = { λ page. (
      refl,
      refl,
      went_stays D.tells D.sound D.file D.faults page.capture.now page.out.now page.writer page.desk.now _,
    ) };

    ghost goes_on = { λ first between last one other. (
      other.0 ∙ one.0,
      other.1 ∙ one.1,
      went_on_page D.tells D.sound D.file D.faults first.capture.now first.out.now between.capture.now between.out.now
          (ap (λ capture. capture.now) one.0) (ap (λ out. out.now) one.1) first.writer between.writer last.writer
          first.desk.now between.desk.now last.desk.now _ _ _ one.2 other.2,
    ) };

    ghost breaks = { λ first between last fault one other. (
      other.0 ∙ one.0,
      other.1 ∙ one.1,
      went_breaks_page D.tells D.sound D.file D.faults first.capture.now first.out.now fault between.capture.now
          between.out.now (ap (λ capture. capture.now) one.0) (ap (λ out. out.now) one.1) first.writer
          between.writer last.writer
          first.desk.now between.desk.now last.desk.now _ _ _ one.2 other.2,
    ) };

    fn write_some(&mut self) -> Result<u32, PutFault> {
        self.writer
            .write_some(self.alloc, self.capture, self.out, self.desk, self.taps)
    }
}
