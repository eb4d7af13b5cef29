//! Laws of references and cycles. Each is a function that does nothing, and says its law of all of them.
ghost use Rattle.data_kinds.specs.Promises.{DataCyclesLeadBack, DefCyclesLeadBack, KindsKeepReferences};

/// Where some data types or definitions are a cycle, references lead from somewhere back to it.
pub fn a_cycle_leads_back()
    ensures datas { DataCyclesLeadBack }
    ensures definitions { DefCyclesLeadBack }
{}

/// Data types that are the same but for their kinds refer to the same ones.
pub fn kinds_keep_references()
    ensures { KindsKeepReferences }
{}
