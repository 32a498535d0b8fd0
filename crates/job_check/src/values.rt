//! The starting values of debug variables that a job has, and the set of sequences with them.
ghost use Rattle.std.specs.Prelude.{◌≡◌, Some, Ok, IfOk, IfErr};
ghost use Rattle.dbgconf_text.specs.Replacing.{Replaces};
ghost use Rattle.job_check.specs.Answers.{OnRefusal};
ghost use Rattle.job_check.specs.Values.{HasConf, HasConfFault, HasStartingValues, HasUndefined, NoConf, NoValues, conf_refusal, name_refusal};

use crate::answer::{CheckRefusal, DbgconfKind, Refusal};
use dap_base::{NameText, Place};
use dbgconf_text::{Conf, ConfFault, ReplaceFault, conf_of, replace};
use sequence_resolve::SeqSet;
use std::alloc::Global;

fn refuse(kind: DbgconfKind, at: Place) -> CheckRefusal
    ensures { result ≡ CheckRefusal.Refused (Refusal.Dbgconf kind at) }
{
    CheckRefusal::Refused(Refusal::Dbgconf(kind, at))
}

fn refuse_text(fault: ConfFault) -> CheckRefusal
    ensures { result ≡ conf_refusal fault }
{
    match fault {
        ConfFault::BadToken(at) => refuse(DbgconfKind::BadToken, at),
        ConfFault::Unexpected(at) => refuse(DbgconfKind::Unexpected, at),
        ConfFault::Repeated(at) => refuse(DbgconfKind::Repeated, at),
        ConfFault::OutOfMemory => CheckRefusal::OutOfMemory,
    }
}

fn refuse_name(fault: ReplaceFault) -> CheckRefusal
    ensures { result ≡ name_refusal fault }
{
    match fault {
        ReplaceFault::UndefinedName(at) => refuse(DbgconfKind::UndefinedName, at),
        ReplaceFault::OutOfMemory => CheckRefusal::OutOfMemory,
    }
}

fn read_text(alloc: Global, text: &str) -> Result<Conf, CheckRefusal>
    ensures found { IfOk result (HasConf (Some text.now)) }
    ensures refused { IfErr result (OnRefusal (HasConfFault text.now)) }
{
    match conf_of(alloc, text) {
        Ok(conf) => Ok(conf),
        Err(fault) => Err(refuse_text(fault)),
    }
}

// The names and values of the text, and none where there is no text.
pub(crate) fn read_conf(alloc: Global, dbgconf: &Option<NameText>) -> Result<Conf, CheckRefusal>
    ensures found { IfOk result (HasConf dbgconf.now) }
    ensures refused { IfErr result (OnRefusal (NoConf dbgconf.now)) }
{
    match dbgconf {
        Some(text) => read_text(alloc, text.as_str()),
        None => Ok(Conf::new(alloc)),
    }
}

fn replace_in(alloc: Global, conf: &Conf, set: SeqSet) -> Result<SeqSet, CheckRefusal>
    ensures same { IfOk result (λ new. new.entries ≡ set.entries) }
    ensures replaced { IfOk result (λ new. Replaces set.debugvars conf.now (Ok new.debugvars)) }
    ensures refused { IfErr result (OnRefusal (HasUndefined conf.now set.debugvars)) }
{
    let SeqSet { entries, debugvars } = set;
    match replace(alloc, debugvars.as_str(), conf) {
        Ok(debugvars) => Ok(SeqSet { entries, debugvars }),
        Err(fault) => Err(refuse_name(fault)),
    }
}

// The set with the values put into its debug variables; the set as it is where there is no text of values.
pub(crate) fn put_values(
    alloc: Global,
    dbgconf: &Option<NameText>,
    conf: &Conf,
    plain: SeqSet,
) -> Result<SeqSet, CheckRefusal>
    ensures values { IfOk result (HasStartingValues dbgconf.now conf.now plain) }
    ensures same { IfOk result (λ set. set.entries ≡ plain.entries) }
    ensures refused { IfErr result (OnRefusal (NoValues dbgconf.now conf.now plain)) }
{
    match dbgconf {
        Some(_) => replace_in(alloc, conf, plain),
        None => Ok(plain),
    }
}
