//! What is done with a target, one step a row.

use std::alloc::Global;
use target_machine::{Target, attempt};
use test_words::{
    RowError, RowWords, Trial, access_of, ask_of, put_image, put_outcome, setting_of_form,
    target_of,
};

/// A target, at which the rows of a form are tried one after the other.
#[derive(Drop)]
pub struct OneTarget {
    target: Target,
}

impl OneTarget {
    // `aim AP SIZE ADDRESS`: whether the access port was aimed.
    fn aim(&mut self, words: &mut RowWords<'_>) -> Result<&'static str, RowError> {
        let aimed = self
            .target
            .aim(words.number8()?, words.number8()?, words.number32()?);
        Ok(if aimed { "aimed" } else { "refused" })
    }

    // `free ACCESS`: whether the access never waits.
    fn is_free(&self, words: &mut RowWords<'_>) -> Result<&'static str, RowError> {
        let free = self.target.is_free(access_of(words)?);
        Ok(if free { "free" } else { "may wait" })
    }

    // `stickyerr`: whether it is set.
    fn sticky(&self) -> &'static str {
        if self.target.sticky() { "set" } else { "clear" }
    }

    // `line COUNT BITS`: the bits are shifted out.
    fn line(&mut self, words: &mut RowWords<'_>) -> Result<&'static str, RowError> {
        let count = words.number8()?;
        if count < 1 || count > 64 {
            return Err(RowError::Unreadable);
        }
        self.target.line(count, words.number()?);
        Ok("done")
    }

    // `clock HERTZ`.
    fn clock(&mut self, words: &mut RowWords<'_>) -> Result<&'static str, RowError> {
        self.target.clock(words.number32()?);
        Ok("done")
    }

    // `delay MICROSECONDS`.
    fn delay(&mut self, words: &mut RowWords<'_>) -> Result<&'static str, RowError> {
        self.target.delay(u32::from(words.number16()?));
        Ok("done")
    }

    // `pins OUTPUT SELECT`: the levels of the pins.
    fn pins(&mut self, words: &mut RowWords<'_>, text: &mut String) -> Result<(), RowError> {
        let pins = self.target.pins(words.number8()?, words.number8()?);
        write!(text, "{pins:#X}")?;
        Ok(())
    }

    // One step.
    fn step(&mut self, words: &mut RowWords<'_>, text: &mut String) -> Result<(), RowError> {
        let whole = *words;
        let word = match words.word()? {
            "aim" => self.aim(words)?,
            "free" => self.is_free(words)?,
            "stickyerr" => self.sticky(),
            "line" => self.line(words)?,
            "clock" => self.clock(words)?,
            "delay" => self.delay(words)?,
            "pins" => return self.pins(words, text),
            "rdbuff" => {
                let value = self.target.rdbuff();
                write!(text, "{value:#X}")?;
                return Ok(());
            }
            "image" => {
                put_image(text, self.target.view(ask_of(words)?))?;
                return Ok(());
            }
            _ => {
                *words = whole;
                put_outcome(text, attempt(&mut self.target, access_of(words)?))?;
                return Ok(());
            }
        };
        text.push_str(word)?;
        Ok(())
    }
}

impl Trial for OneTarget {
    fn begin(alloc: Global, form: &str) -> Result<OneTarget, RowError> {
        let setting = setting_of_form(alloc, form)?;
        let job = target_of(alloc, &setting)?;
        let target = Target::new(alloc, &job)?;
        Ok(OneTarget { target })
    }

    fn answer(&mut self, alloc: Global, input: &str) -> Result<String, RowError> {
        let mut words = RowWords::new(input);
        let mut text = String::new(alloc);
        self.step(&mut words, &mut text)?;
        words.end()?;
        Ok(text)
    }
}
