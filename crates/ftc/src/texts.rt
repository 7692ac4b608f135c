//! Fetching and reading the texts of a run.

ghost use Rattle.std.specs.Prelude.{◌≡◌, length, Err, IfOk, IfErr};
ghost use Rattle.ftc_outside.specs.Desk.{SameFiles, HasServed};
ghost use Rattle.ftc_script.specs.Script.{IsScript};
ghost use Rattle.ftc.specs.Answers.{IsInputAnswer, IsScriptAnswer, IsReadingAnswer, IsRunAnswer};
ghost use Rattle.ftc_words.specs.Shown.{named_of, shown_mode};
ghost use Rattle.ftc.specs.Texts.{ring_of, HasChain, HasCapture, HasScript, HasSchedule, IsSetup, AreInputs, AreTexts};
ghost use Rattle.ftc.specs.Refused.{IsTextRefused, IsWrongChain, IsWrongCapture, IsWrongScript, IsScheduleRefused};
ghost use Rattle.ftc.specs.Refused.{IsSetupRefused, IsInputRefused, IsRunRefused};

use crate::status::{Status, schedule_status};
use ftc_conf::read_chain;
use ftc_journal::{Journal, read};
use ftc_mbox::ChainSpec;
use ftc_outside::Desk;
use ftc_pcap::{Capture, read_capture};
use ftc_protocol::ring_of;
use ftc_script::{Script, accepted, read_script};
use ftc_words::{Mode, Names};
use std::alloc::Global;

/// What a chain and a capture say.
#[derive(Drop)]
pub struct Setup {
    pub spec: ChainSpec,
    pub capture: Capture,
}

/// What a chain, a capture and a script say.
#[derive(Drop)]
pub struct Inputs {
    pub spec: ChainSpec,
    pub capture: Capture,
    pub script: Script,
}

/// What the texts of a run say.
#[derive(Drop)]
pub struct Texts {
    pub spec: ChainSpec,
    pub capture: Capture,
    pub script: Script,
    pub schedule: Journal,
}

/// Fetches and reads the chain.
fn fetch_chain<D: Desk>(alloc: Global, name: &str, desk: &mut D) -> Result<ChainSpec, Status>
    ensures accepted { D.tells desk.old → IfOk result (HasChain name.now (D.file desk.old)) }
    ensures refused { D.tells desk.old → IfErr result (IsTextRefused (D.sound desk.old)
        (D.file desk.old) name.now IsWrongChain) }
    ensures answer { IfErr result IsInputAnswer }
    ensures files { D.tells desk.old → SameFiles (D.file desk.old) (D.file desk.new) }
    ensures served { HasServed D.tells D.sound D.faults (result ≡ Err Status.DeskFault) desk.old desk.new }
{
    let text = desk.fetch(alloc, name)?;
    let spec = read_chain(alloc, text.as_slice())?;
    Ok(spec)
}

/// Fetches and reads the capture.
fn fetch_capture<D: Desk>(alloc: Global, name: &str, desk: &mut D) -> Result<Capture, Status>
    ensures accepted { D.tells desk.old → IfOk result (HasCapture name.now (D.file desk.old)) }
    ensures refused { D.tells desk.old → IfErr result (IsTextRefused (D.sound desk.old)
        (D.file desk.old) name.now IsWrongCapture) }
    ensures answer { IfErr result IsInputAnswer }
    ensures files { D.tells desk.old → SameFiles (D.file desk.old) (D.file desk.new) }
    ensures served { HasServed D.tells D.sound D.faults (result ≡ Err Status.DeskFault) desk.old desk.new }
{
    let text = desk.fetch(alloc, name)?;
    let capture = read_capture(alloc, text.as_slice())?;
    Ok(capture)
}

/// Fetches and reads the chain and then the capture, as each command does that reads texts.
pub fn read_setup<D: Desk>(
    alloc: Global,
    chain: &str,
    capture: &str,
    desk: &mut D,
) -> Result<Setup, Status>
    ensures accepted { D.tells desk.old → IfOk result (λ setup. IsSetup chain.now capture.now (D.file desk.old)
        setup.spec setup.capture) }
    ensures refused { D.tells desk.old → IfErr result (IsSetupRefused (D.sound desk.old) chain.now capture.now
        (D.file desk.old)) }
    ensures answer { IfErr result IsInputAnswer }
    ensures files { D.tells desk.old → SameFiles (D.file desk.old) (D.file desk.new) }
    ensures served { HasServed D.tells D.sound D.faults (result ≡ Err Status.DeskFault) desk.old desk.new }
{
    let spec = fetch_chain(alloc, chain, desk)?;
    let capture = fetch_capture(alloc, capture, desk)?;
    Ok(Setup { spec, capture })
}

/// Fetches and reads the script of a run of this chain on so many packets.
fn fetch_script<D: Desk>(
    alloc: Global,
    name: &str,
    spec: &ChainSpec,
    packets: u32,
    desk: &mut D,
) -> Result<Script, Status>
    ensures accepted { D.tells desk.old → IfOk result (HasScript name.now (D.file desk.old) spec.now packets) }
    ensures ring { IfOk result (λ script. script.ring ≡ ring_of spec.now) }
    ensures packets { IfOk result (λ script. script.packets ≡ packets) }
    ensures right { IfOk result IsScript }
    ensures refused { D.tells desk.old → IfErr result (IsTextRefused (D.sound desk.old) (D.file desk.old) name.now
        (IsWrongScript (ring_of spec.now) packets)) }
    ensures answer { IfErr result IsScriptAnswer }
    ensures files { D.tells desk.old → SameFiles (D.file desk.old) (D.file desk.new) }
    ensures served { HasServed D.tells D.sound D.faults (result ≡ Err Status.DeskFault) desk.old desk.new }
{
    accepted();
    let text = desk.fetch(alloc, name)?;
    let script = read_script(alloc, text.as_slice(), &ring_of(spec), packets)?;
    Ok(script)
}

/// Fetches and reads chain, capture and script in this order, each before the next.
pub fn read_inputs<D: Desk>(alloc: Global, names: Names<'_>, desk: &mut D) -> Result<Inputs, Status>
    ensures accepted { D.tells desk.old → IfOk result (λ inputs. AreInputs (named_of names.entry) (D.file desk.old)
        inputs.spec inputs.capture inputs.script) }
    ensures ring { IfOk result (λ inputs. inputs.script.ring ≡ ring_of inputs.spec) }
    ensures packets { IfOk result (λ inputs. inputs.script.packets ≡ length inputs.capture.packets) }
    ensures right { IfOk result (λ inputs. IsScript inputs.script) }
    ensures refused { D.tells desk.old → IfErr result (IsInputRefused (D.sound desk.old) (named_of names.entry)
        (D.file desk.old)) }
    ensures answer { IfErr result IsReadingAnswer }
    ensures files { D.tells desk.old → SameFiles (D.file desk.old) (D.file desk.new) }
    ensures served { HasServed D.tells D.sound D.faults (result ≡ Err Status.DeskFault) desk.old desk.new }
{
    let setup = read_setup(alloc, names.chain, names.capture, desk)?;
    let Setup { spec, capture } = setup;
    let packets = capture.packets.len() as u32;
    let script = fetch_script(alloc, names.script, &spec, packets, desk)?;
    Ok(Inputs {
        spec,
        capture,
        script,
    })
}

/// Fetches and reads the schedule, where a run has one. A run without one has the empty schedule.
fn fetch_schedule<D: Desk>(alloc: Global, mode: Mode<'_>, desk: &mut D) -> Result<Journal, Status>
    ensures accepted { D.tells desk.old → IfOk result (λ schedule. HasSchedule (shown_mode mode.entry)
        (D.file desk.old) schedule.items) }
    ensures refused { D.tells desk.old → IfErr result (IsScheduleRefused (D.sound desk.old) (shown_mode mode.entry)
        (D.file desk.old)) }
    ensures answer { IfErr result IsRunAnswer }
    ensures files { D.tells desk.old → SameFiles (D.file desk.old) (D.file desk.new) }
    ensures served { HasServed D.tells D.sound D.faults (result ≡ Err Status.DeskFault) desk.old desk.new }
{
    let Mode::Alone { schedule, .. } = mode else {
        return Ok(Journal::new(alloc));
    };
    let text = desk.fetch(alloc, schedule)?;
    match read(alloc, text.as_slice()) {
        Ok(events) => Ok(events),
        Err(refusal) => Err(schedule_status(refusal)),
    }
}

/// Fetches and reads chain, capture, script and schedule in this order, each before the next.
pub fn read_texts<D: Desk>(
    alloc: Global,
    names: Names<'_>,
    mode: Mode<'_>,
    desk: &mut D,
) -> Result<Texts, Status>
    ensures accepted { D.tells desk.old → IfOk result (λ texts. AreTexts (named_of names.entry) (shown_mode mode.entry)
        (D.file desk.old) texts.spec texts.capture texts.script texts.schedule.items) }
    ensures ring { IfOk result (λ texts. texts.script.ring ≡ ring_of texts.spec) }
    ensures packets { IfOk result (λ texts. texts.script.packets ≡ length texts.capture.packets) }
    ensures refused { D.tells desk.old → IfErr result (IsRunRefused (D.sound desk.old) (named_of names.entry)
        (shown_mode mode.entry) (D.file desk.old)) }
    ensures answer { IfErr result IsRunAnswer }
    ensures files { D.tells desk.old → SameFiles (D.file desk.old) (D.file desk.new) }
    ensures served { HasServed D.tells D.sound D.faults (result ≡ Err Status.DeskFault) desk.old desk.new }
{
    let inputs = read_inputs(alloc, names, desk)?;
    let Inputs {
        spec,
        capture,
        script,
    } = inputs;
    let schedule = fetch_schedule(alloc, mode, desk)?;
    Ok(Texts {
        spec,
        capture,
        script,
        schedule,
    })
}
