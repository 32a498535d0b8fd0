//! The lists of register accesses that plans issue.
ghost use Rattle.std.specs.Prelude.{IfOk};
ghost use Rattle.target_machine.specs.Sound.{IsSound};

use access_regs::{Managed, Plan};
use std::alloc::{AllocError, Global};
use target_machine::Unit;
use test_words::{RowError, RowWords, Trial, is_sound, put_access, unit_of};

/// What is kept of the access ports, over which the rows of a form go one after the other.
#[derive(Drop)]
pub struct Plans {
    managed: Managed,
}

// Writes the accesses of a plan.
fn put_plan(text: &mut String, plan: &Plan) -> Result<(), AllocError> {
    if plan.count == 0 {
        return text.push_str("none");
    }
    for (index, access) in plan
        .accesses
        .iter()
        .take(usize::from(plan.count))
        .enumerate()
    {
        if index != 0 {
            text.push_str("; ")?;
        }
        put_access(text, *access)?;
    }
    Ok(())
}

// A unit that may be asked.
fn sound_unit_of(words: &mut RowWords<'_>) -> Result<Unit, RowError>
    ensures { IfOk result IsSound }
{
    let unit = unit_of(words)?;
    if is_sound(&unit) {
        Ok(unit)
    } else {
        Err(RowError::Unreadable)
    }
}

// A unit of an access port, before which every unsettled port is settled.
const OF_A_PORT: Unit = Unit::Ap {
    read: true,
    ap: 0,
    addr: 0,
    value: 0,
};

fn yes_or_no(is_so: bool) -> &'static str {
    if is_so { "yes" } else { "no" }
}

impl Plans {
    // `needs CFG UNIT`, `needs CSW UNIT`, `needs settling UNIT`: whether this comes first.
    fn needs(&self, words: &mut RowWords<'_>) -> Result<&'static str, RowError> {
        let what = words.word()?;
        let unit = unit_of(words)?;
        match what {
            "CFG" => Ok(yes_or_no(self.managed.needs_cfg(&unit))),
            "CSW" => Ok(yes_or_no(self.managed.needs_csw(&unit))),
            "settling" => Ok(yes_or_no(self.managed.needs_settle(&unit))),
            _ => Err(RowError::Unreadable),
        }
    }

    // `cfg UNIT`: the reads of CFG before a unit that needs them.
    fn cfg(&self, words: &mut RowWords<'_>, text: &mut String) -> Result<(), RowError> {
        let unit = unit_of(words)?;
        if self.managed.needs_cfg(&unit) {
            put_plan(text, &self.managed.cfg_plan(&unit))?;
        } else {
            text.push_str("CFG is known")?;
        }
        Ok(())
    }

    // `csw UNIT`: the reads of CSW before a unit that needs them.
    fn csw(&self, words: &mut RowWords<'_>, text: &mut String) -> Result<(), RowError> {
        let unit = unit_of(words)?;
        if self.managed.needs_csw(&unit) {
            put_plan(text, &self.managed.first_plan(&unit))?;
        } else {
            text.push_str("CSW is known")?;
        }
        Ok(())
    }

    // `plan UNIT`: the plan of a unit.
    fn plan(&self, words: &mut RowWords<'_>, text: &mut String) -> Result<(), RowError> {
        let unit = sound_unit_of(words)?;
        put_plan(text, &self.managed.plan(&unit))?;
        Ok(())
    }

    // `made UNIT`: the plan of a unit was made.
    fn make_units(&mut self, words: &mut RowWords<'_>) -> Result<&'static str, RowError> {
        let unit = sound_unit_of(words)?;
        self.managed.note_made(&unit);
        Ok("noted")
    }

    // `make UNIT`: the plan of a unit before which nothing is needed; it is made.
    fn make(&mut self, words: &mut RowWords<'_>, text: &mut String) -> Result<(), RowError> {
        let unit = sound_unit_of(words)?;
        if self.managed.needs_cfg(&unit) {
            text.push_str("CFG first: ")?;
        }
        if self.managed.needs_csw(&unit) {
            text.push_str("CSW first: ")?;
        }
        if self.managed.needs_settle(&unit) {
            text.push_str("settling first: ")?;
        }
        put_plan(text, &self.managed.plan(&unit))?;
        self.managed.note_made(&unit);
        Ok(())
    }

    // `learn_cfg AP VALUE`: the read of CFG gave this value.
    fn learn_cfg(&mut self, words: &mut RowWords<'_>) -> Result<&'static str, RowError> {
        let large = self.managed.learn_cfg(words.number8()?, words.number32()?);
        Ok(if large { "large" } else { "small" })
    }

    // `learn AP VALUE`: the read of CSW gave this value.
    fn learn(&mut self, words: &mut RowWords<'_>) -> Result<&'static str, RowError> {
        self.managed.learn(words.number8()?, words.number32()?);
        Ok("noted")
    }

    // `selected VALUE`: SELECT was written outside the plans, where no port is unsettled.
    fn select_port(&mut self, words: &mut RowWords<'_>) -> Result<&'static str, RowError> {
        let select = words.number32()?;
        if self.managed.needs_settle(&OF_A_PORT) {
            return Err(RowError::Unreadable);
        }
        self.managed.note_select(select);
        Ok("noted")
    }

    // `forget AP`: CSW and TAR of a port are no longer known, where no port is unsettled.
    fn forget(&mut self, words: &mut RowWords<'_>) -> Result<&'static str, RowError> {
        let ap = words.number8()?;
        if self.managed.needs_settle(&OF_A_PORT) {
            return Err(RowError::Unreadable);
        }
        self.managed.forget(ap);
        Ok("noted")
    }

    // `settled`: the settling was made.
    fn settle_port(&mut self) -> &'static str {
        self.managed.note_settled();
        "noted"
    }

    // One step that is answered by a word.
    fn word(&mut self, name: &str, words: &mut RowWords<'_>) -> Result<&'static str, RowError> {
        match name {
            "needs" => self.needs(words),
            "bank" => Ok(if self.managed.bank_zero() {
                "zero"
            } else {
                "other or unknown"
            }),
            "made" => self.make_units(words),
            "learn_cfg" => self.learn_cfg(words),
            "learn" => self.learn(words),
            "selected" => self.select_port(words),
            "forget" => self.forget(words),
            "settled" => Ok(self.settle_port()),
            _ => Err(RowError::Unreadable),
        }
    }
}

impl Trial for Plans {
    fn begin(alloc: Global, _form: &str) -> Result<Plans, RowError> {
        let managed = Managed::new(alloc)?;
        Ok(Plans { managed })
    }

    fn answer(&mut self, alloc: Global, input: &str) -> Result<String, RowError> {
        let mut words = RowWords::new(input);
        let mut text = String::new(alloc);
        match words.word()? {
            "cfg" => self.cfg(&mut words, &mut text)?,
            "csw" => self.csw(&mut words, &mut text)?,
            "plan" => self.plan(&mut words, &mut text)?,
            "make" => self.make(&mut words, &mut text)?,
            "settle" => put_plan(&mut text, &self.managed.settle())?,
            name => text.push_str(self.word(name, &mut words)?)?,
        }
        words.end()?;
        Ok(text)
    }
}
