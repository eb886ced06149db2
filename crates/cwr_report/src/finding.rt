use cwr_call::Fault;
use cwr_record::Column;
use cwr_rules::Over;

/// A fault of a transaction, with where it stands in the file and what is wrong there.
#[derive(Clone, Copy, Debug, PartialEq, Eq)]
pub struct Finding {
    /// Group id of the transaction's group, from 1.
    pub group: u32,
    /// Transaction sequence of the transaction in its group, from 0.
    pub transaction: u32,
    /// The faulty record's sequence and type, and the number of the rule, from 1 to 15.
    pub fault: Fault,
    /// The faulty record's line in the file, from 1; for the sequence 0 the header's.
    pub line: u64,
    /// The fields of that line that break the rule, in the order of the line. There are none if the rule looks at more
    /// than one record: J10 to J13 and J15.
    pub fields: [Option<Spot>; 3],
    /// What the rule requires there.
    pub expected: Expected,
}

/// A field of a line.
#[derive(Clone, Copy, Debug, PartialEq, Eq)]
pub struct Spot {
    /// What it is called.
    pub name: FieldName,
    /// Where it stands.
    pub column: Column,
}

/// What a field is called.
#[derive(Clone, Copy, Debug, PartialEq, Eq)]
pub enum FieldName {
    /// Record type, of every record.
    RecordType,
    /// Work title of NWR and REV.
    WorkTitle,
    /// Submitter work number of NWR and REV.
    SubmitterWorkNumber,
    /// ISWC of NWR and REV.
    Iswc,
    /// Copyright date of NWR and REV.
    CopyrightDate,
    /// Duration of NWR and REV.
    Duration,
    /// Interested party number of SPU, SPT, SWR and SWT.
    PartyNumber,
    /// Publisher interested party number of PWR.
    PublisherPartyNumber,
    /// PR ownership share of SPU, OPU, SWR and OWR.
    PerformingOwnership,
    /// MR ownership share of SPU, OPU, SWR and OWR.
    MechanicalOwnership,
    /// SR ownership share of SPU, OPU, SWR and OWR.
    SynchronizationOwnership,
    /// PR collection share of SPT and SWT.
    PerformingCollection,
    /// MR collection share of SPT and SWT.
    MechanicalCollection,
    /// SR collection share of SPT and SWT.
    SynchronizationCollection,
    /// Inclusion/exclusion indicator of SPT and SWT.
    Indicator,
    /// TIS numeric code of SPT and SWT.
    Territory,
    /// Creation date of HDR.
    CreationDate,
    /// Creation time of HDR.
    CreationTime,
    /// Transmission date of HDR.
    TransmissionDate,
    /// Transaction type of GRH.
    TransactionType,
    /// Group ID of GRH and GRT.
    GroupId,
    /// Transaction sequence of each record of a transaction.
    TransactionSequence,
    /// Record sequence of each record of a transaction.
    RecordSequence,
    /// Group count of TRL.
    GroupCount,
    /// Transaction count of GRT and TRL.
    TransactionCount,
    /// Record count of GRT and TRL.
    RecordCount,
}

/// What a rule requires, if that is more than its number says.
#[derive(Clone, Copy, Debug, PartialEq, Eq)]
pub enum Expected {
    /// No more than the rule says.
    Rule,
    /// J1: a record that may follow in the block that a record of this type began, or after the titles or the header.
    FollowerOf([u8; 3]),
    /// J4: the check digit of the nine digits that stand in the code.
    CheckDigit(u8),
    /// J8: the interested party number of the SPU before an SPT, or of the SWR before an SWT.
    Party([u8; 9]),
    /// J11, J12, J13: 0, or from 9994 to 10006, where the ownership shares of the right add up to this.
    Ownership(u64),
    /// J15: at most 10006 of each right. The value is the territory in which more is collected.
    Collection(Over),
}
