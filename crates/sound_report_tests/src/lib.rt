//! What the rules of a report say of small reports: a table, and a law that the definitions agree with it.
//!
//! Each row has a trace and a report, and says that the report is sound, or which rule it breaks first; a row on use says
//! whether a sound report is used. The law is about the definitions themselves: `proofs/` has tests that decide them,
//! `Decided.antt` the proof that they do, and the checker computes these tests at each row.
#![tactic(auto)]

ghost use Rattle.sound_report_tests.specs.Words.{AllAgree, AllUseAgree};
ghost use Rattle.sound_report_tests.specs.Rows.{
  answer_rows,
  apart_rows,
  filling_rows,
  journal_rows,
  miss_rows,
  place_rows,
  sound_rows,
  used_rows,
};
ghost use Rattle.sound_report_tests.specs.CachedRows.{cached_rows, cached_used_rows};
ghost use Rattle.sound_report_tests.specs.ProfileRows.{each_rows, last_rows, profile_rows};
ghost use Rattle.sound_report_tests.specs.SweptRows.{give_rows, marked_rows, sweep_rows, total_rows};

/// The definitions agree with each row of the table.
pub fn rows_agree()
    // sound reports
    ensures sound { AllAgree sound_rows }
    ensures marked { AllAgree marked_rows }

    // answers, journals and misses
    ensures answers { AllAgree answer_rows }
    ensures journals { AllAgree journal_rows }
    ensures cached { AllAgree cached_rows }
    ensures misses { AllAgree miss_rows }

    // where objects lie
    ensures places { AllAgree place_rows }
    ensures apart { AllAgree apart_rows }
    ensures filling { AllAgree filling_rows }

    // sweeps and totals
    ensures sweeps { AllAgree sweep_rows }
    ensures gives { AllAgree give_rows }
    ensures totals { AllAgree total_rows }

    // the sampled profile
    ensures profiles { AllAgree profile_rows }
    ensures lasts { AllAgree last_rows }
    ensures eaches { AllAgree each_rows }

    // sound reports that are used, and some that aren't
    ensures used { AllUseAgree used_rows }
    ensures cached_used { AllUseAgree cached_used_rows }
{}
