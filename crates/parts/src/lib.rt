//! The parts of a script, and the challengers that they make.
#![tactic(auto)]

ghost use Rattle.std.specs.Prelude.{◌≡◌, ℕ, List, ◌++◌, IfOk};
ghost use Rattle.script.specs.Meaning.{hash_parameters};
ghost use Rattle.script.specs.Grammar.{said_by};
ghost use Rattle.agreement.specs.Ends.{AreAlike};
ghost use Rattle.played.specs.Voices.{voice};
ghost use Rattle.rehearsal.specs.Lines.{lines_of, part_of};
ghost use Rattle.parts.specs.Scripts.{Way as WayT, made_as, told, begun_part, refused_part};
ghost use Rattle.parts.specs.Scripts.{idle_part, made_part, duplex_made, multi_made_over};
ghost use Rattle.parts.specs.Scripts.{multi_made, hash_made, serial_duplex_made_over};
ghost use Rattle.parts.specs.Scripts.{serial_duplex_made, serial_hash_made_over, serial_hash_made};
ghost use Rattle.parts.specs.Scripts.{read_part, script as script_of};

use agreement::Ends;
use domain::{
    BABY_BEAR_ORDER, BYTES_ORDER, BabyBear, Bytes, Domain, GOLDILOCKS_ORDER, Goldilocks,
    KOALA_BEAR_ORDER, KoalaBear,
};
use played::{Played, make_duplex, make_hash, make_multi, make_serial_duplex, make_serial_hash};
use refusal::Refusal;
use rehearsal::lines::{Mark, Numbered, Part, split_before};
use script::{DomainName, Fault, HashParameters, Line, SpongeParameters, read_line};
use std::alloc::{AllocError, Global};

mod tables;

/// What is done with the parts of a script.
pub trait Playing {
    // Which of the two ways it is.
    ghost way: { WayT };

    // What was written.
    ghost text: { Self → List ℕ };

    /// Goes on with the challengers that a part made, both ends alike.
    fn begin<C: Played + Copy>(&mut self, ends: Ends<C>, part: &Part<'_>) -> Result<(), AllocError>
        requires alike { AreAlike C.make C.held_value ends }
        ensures { IfOk result (λ _. text self.new
            ≡ text self.old ++ begun_part way
            (made_as (voice C.rule C.shown C.ending C.speaks C.found (C.make ends.prover))
            (C.held_value ends.prover)) (part_of part.now)) };

    /// Goes on after a make that was refused.
    fn refuse(&mut self, refusal: &Refusal, part: &Part<'_>) -> Result<(), AllocError>
        ensures { IfOk result (λ _. text self.new
            ≡ text self.old ++ refused_part way refusal.now (part_of part.now)) };

    /// Goes on where no challenger was asked for.
    fn idle(&mut self, part: &Part<'_>) -> Result<(), AllocError>
        ensures { IfOk result (λ _. text self.new
            ≡ text self.old ++ idle_part way (part_of part.now)) };
}

/// Goes on with both ends, or after their refusal.
fn begin_or_refuse<C: Played + Copy, P: Playing>(
    made: Result<Ends<C>, Refusal>,
    part: &Part<'_>,
    player: &mut P,
) -> Result<(), AllocError>
    requires alike { IfOk made (AreAlike C.make C.held_value) }
    ensures { IfOk result (λ _. P.text player.new
        ≡ P.text player.old ++ made_part P.way
        (told (λ e. voice C.rule C.shown C.ending C.speaks C.found (C.make e.prover))
        (λ e. C.held_value e.prover) made) (part_of part.now)) }
{
    match made {
        Ok(ends) => player.begin(ends, part),
        Err(refusal) => player.refuse(&refusal, part),
    }
}

/// Makes a duplex challenger.
fn begin_duplex<P: Playing>(
    domain: DomainName,
    asked: &SpongeParameters,
    part: &Part<'_>,
    player: &mut P,
) -> Result<(), AllocError>
    ensures { IfOk result (λ _. P.text player.new
        ≡ P.text player.old ++ made_part P.way (duplex_made domain asked.now) (part_of part.now)) }
{
    match domain {
        DomainName::Bytes => begin_or_refuse(
            make_duplex::<Bytes, BYTES_ORDER>(asked),
            part,
            player,
        ),
        DomainName::BabyBear => begin_or_refuse(
            make_duplex::<BabyBear, BABY_BEAR_ORDER>(asked),
            part,
            player,
        ),
        DomainName::KoalaBear => begin_or_refuse(
            make_duplex::<KoalaBear, KOALA_BEAR_ORDER>(asked),
            part,
            player,
        ),
        DomainName::Goldilocks => begin_or_refuse(
            make_duplex::<Goldilocks, GOLDILOCKS_ORDER>(asked),
            part,
            player,
        ),
    }
}

/// Makes a multi-field challenger over a sampled domain.
fn begin_multi_over<F: Domain<SAMPLED> + Copy, P: Playing, const SAMPLED: u64>(
    domain: DomainName,
    asked: &SpongeParameters,
    part: &Part<'_>,
    player: &mut P,
) -> Result<(), AllocError>
    ensures { IfOk result (λ _. P.text player.new
        ≡ P.text player.old ++ made_part P.way (multi_made_over SAMPLED domain asked.now)
        (part_of part.now)) }
{
    match domain {
        DomainName::Bytes => begin_or_refuse(
            make_multi::<F, Bytes, SAMPLED, BYTES_ORDER>(asked),
            part,
            player,
        ),
        DomainName::BabyBear => begin_or_refuse(
            make_multi::<F, BabyBear, SAMPLED, BABY_BEAR_ORDER>(asked),
            part,
            player,
        ),
        DomainName::KoalaBear => begin_or_refuse(
            make_multi::<F, KoalaBear, SAMPLED, KOALA_BEAR_ORDER>(asked),
            part,
            player,
        ),
        DomainName::Goldilocks => begin_or_refuse(
            make_multi::<F, Goldilocks, SAMPLED, GOLDILOCKS_ORDER>(asked),
            part,
            player,
        ),
    }
}

/// Makes a multi-field challenger.
fn begin_multi<P: Playing>(
    sampled: DomainName,
    domain: DomainName,
    asked: &SpongeParameters,
    part: &Part<'_>,
    player: &mut P,
) -> Result<(), AllocError>
    ensures { IfOk result (λ _. P.text player.new
        ≡ P.text player.old ++ made_part P.way (multi_made sampled domain asked.now)
        (part_of part.now)) }
{
    match sampled {
        DomainName::Bytes => begin_multi_over::<Bytes, P, BYTES_ORDER>(domain, asked, part, player),
        DomainName::BabyBear => begin_multi_over::<BabyBear, P, BABY_BEAR_ORDER>(
            domain, asked, part, player,
        ),
        DomainName::KoalaBear => begin_multi_over::<KoalaBear, P, KOALA_BEAR_ORDER>(
            domain, asked, part, player,
        ),
        DomainName::Goldilocks => begin_multi_over::<Goldilocks, P, GOLDILOCKS_ORDER>(
            domain, asked, part, player,
        ),
    }
}

/// Makes a hash challenger.
fn begin_hash<P: Playing>(
    asked: &HashParameters,
    part: &Part<'_>,
    player: &mut P,
) -> Result<(), AllocError>
    ensures { IfOk result (λ _. P.text player.new
        ≡ P.text player.old ++ made_part P.way (hash_made (hash_parameters asked.now))
        (part_of part.now)) }
{
    let initial = asked.bytes.as_slice();
    begin_or_refuse(make_hash(asked.hasher, initial), part, player)
}

/// Makes a serializing challenger in a sampled domain over a duplex challenger.
fn begin_serial_duplex_in<D: Domain<ORDER> + Copy, P: Playing, const ORDER: u64>(
    asked: &SpongeParameters,
    part: &Part<'_>,
    player: &mut P,
) -> Result<(), AllocError>
    ensures { IfOk result (λ _. P.text player.new
        ≡ P.text player.old ++ made_part P.way (serial_duplex_made_over ORDER asked.now)
        (part_of part.now)) }
{
    begin_or_refuse(make_serial_duplex::<D, ORDER>(asked), part, player)
}

/// Makes a serializing challenger over a duplex challenger.
fn begin_serial_duplex<P: Playing>(
    sampled: DomainName,
    asked: &SpongeParameters,
    part: &Part<'_>,
    player: &mut P,
) -> Result<(), AllocError>
    ensures { IfOk result (λ _. P.text player.new
        ≡ P.text player.old ++ made_part P.way (serial_duplex_made sampled asked.now)
        (part_of part.now)) }
{
    match sampled {
        DomainName::Bytes => begin_serial_duplex_in::<Bytes, P, BYTES_ORDER>(asked, part, player),
        DomainName::BabyBear => begin_serial_duplex_in::<BabyBear, P, BABY_BEAR_ORDER>(
            asked, part, player,
        ),
        DomainName::KoalaBear => begin_serial_duplex_in::<KoalaBear, P, KOALA_BEAR_ORDER>(
            asked, part, player,
        ),
        DomainName::Goldilocks => begin_serial_duplex_in::<Goldilocks, P, GOLDILOCKS_ORDER>(
            asked, part, player,
        ),
    }
}

/// Makes a serializing challenger in a sampled domain over a hash challenger.
fn begin_serial_hash_in<D: Domain<ORDER> + Copy, P: Playing, const ORDER: u64>(
    asked: &HashParameters,
    part: &Part<'_>,
    player: &mut P,
) -> Result<(), AllocError>
    ensures { IfOk result (λ _. P.text player.new
        ≡ P.text player.old ++ made_part P.way
        (serial_hash_made_over ORDER (hash_parameters asked.now)) (part_of part.now)) }
{
    let initial = asked.bytes.as_slice();
    begin_or_refuse(
        make_serial_hash::<D, ORDER>(asked.hasher, initial),
        part,
        player,
    )
}

/// Makes a serializing challenger over a hash challenger.
fn begin_serial_hash<P: Playing>(
    sampled: DomainName,
    asked: &HashParameters,
    part: &Part<'_>,
    player: &mut P,
) -> Result<(), AllocError>
    ensures { IfOk result (λ _. P.text player.new
        ≡ P.text player.old ++ made_part P.way
        (serial_hash_made sampled (hash_parameters asked.now)) (part_of part.now)) }
{
    match sampled {
        DomainName::Bytes => begin_serial_hash_in::<Bytes, P, BYTES_ORDER>(asked, part, player),
        DomainName::BabyBear => begin_serial_hash_in::<BabyBear, P, BABY_BEAR_ORDER>(
            asked, part, player,
        ),
        DomainName::KoalaBear => begin_serial_hash_in::<KoalaBear, P, KOALA_BEAR_ORDER>(
            asked, part, player,
        ),
        DomainName::Goldilocks => begin_serial_hash_in::<Goldilocks, P, GOLDILOCKS_ORDER>(
            asked, part, player,
        ),
    }
}

/// Plays a part.
fn play_part<P: Playing>(heap: Global, part: &Part<'_>, player: &mut P) -> Result<(), AllocError>
    ensures { IfOk result (λ _. P.text player.new
        ≡ P.text player.old ++ read_part P.way (part_of part.now)
        (said_by part.now.make.text.now)) }
{
    match read_line(heap, part.make.text) {
        Ok(Line::MakeDuplex(domain, asked)) => begin_duplex(domain, &asked, part, player),
        Ok(Line::MakeMulti(sampled, domain, asked)) => begin_multi(
            sampled, domain, &asked, part, player,
        ),
        Ok(Line::MakeHash(asked)) => begin_hash(&asked, part, player),
        Ok(Line::MakeSerialDuplex(sampled, asked)) => begin_serial_duplex(
            sampled, &asked, part, player,
        ),
        Ok(Line::MakeSerialHash(sampled, asked)) => begin_serial_hash(
            sampled, &asked, part, player,
        ),
        Err(Fault::Memory) => Err(AllocError),
        _ => player.idle(part),
    }
}

/// Plays the lines of a script: a part begins at each line that begins with `make`, and the first at the first line.
pub fn play_parts<P: Playing>(
    heap: Global,
    lines: &[Numbered<'_>],
    player: &mut P,
) -> Result<(), AllocError>
    ensures { IfOk result (λ _. P.text player.new
        ≡ P.text player.old ++ script_of P.way (lines_of lines.now)) }
{
    let mut at = 0;
    while let Some((make, behind)) = lines[at..].split_first() {
        let (inside, _) = split_before(Mark::Make, behind);
        let part = Part {
            make: *make,
            lines: inside,
        };
        play_part(heap, &part, player)?;
        at += 1 + inside.len();
    }
    Ok(())
}
