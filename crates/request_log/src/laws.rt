//! What holds of every line of the log.
ghost use Rattle.request_log.specs.Named.{AreDistinct};
ghost use Rattle.as_exchange.specs.Refusal.{word_of as as_word};
ghost use Rattle.tgs_opening.specs.Refusal.{word_of as tgs_word};

/// Does nothing. Its clauses say that a name in the log is the name of one rule of its exchange.
pub fn rule_names()
    ensures as_rules { AreDistinct as_word }
    ensures tgs_rules { AreDistinct tgs_word }
{}
