//! What a user of the crate may rest on beside the calls.
ghost use Rattle.raf_script.specs.Conversion.{SpellsConversion, FitsConversion};
ghost use Rattle.raf_script.specs.Laws.{OneContent, OneWrongLine};
ghost use Rattle.raf_script.specs.LogScript.{SpellsLog, FitsLog};
ghost use Rattle.raf_script.specs.Script.{Spells, Fits};
ghost use Rattle.raf_script.specs.declared.script.Medium.{Medium};

/// A text spells one content at most, and has one first wrong line at most: so each reading of it is a function of its bytes, but for want
/// of memory.
pub fn one_reading()
    ensures scripts { (m : Medium) → OneContent (Spells m) }
    ensures wrong_scripts { (m : Medium) → OneWrongLine (Fits m) 5 }
    ensures conversions { OneContent SpellsConversion }
    ensures wrong_conversions { OneWrongLine FitsConversion 7 }
    ensures logs { OneContent SpellsLog }
    ensures wrong_logs { OneWrongLine FitsLog 5 }
{}
