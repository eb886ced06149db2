//! Tests of the page of a check: what stands in it of a file with faults and a remark, of one that is refused and of a
//! clean one; a name with signs of markup; and a writer that fails. And of the page of a summary: of a register, and of
//! one without entries.
#![tactic(auto)]

#[cfg(test)]
mod checks;
#[cfg(test)]
mod pages;
#[cfg(test)]
mod summaries;
