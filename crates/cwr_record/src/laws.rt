//! Laws about the fields of a line that stands for a record: the layouts agree with the calls that read single fields.
//!
//! A law is a function that does nothing. Its contract is what is proved.

ghost use Rattle.std.specs.Prelude.{◌≡◌, ℕ, List};
ghost use Rattle.cwr_record.specs.Layout.{StandsFor};
ghost use Rattle.cwr_record.specs.LineOf.{type_of_work, IsLineOfPublisher, IsLineOfPublisherTerritory, IsLineOfWriter, IsLineOfWriterTerritory, IsLineOfLink};
ghost use Rattle.cwr_record.specs.RecordTypes.{type_of};
ghost use Rattle.cwr_record.specs.Works as works;
ghost use Rattle.cwr_record.specs.Publishers as publishers;
ghost use Rattle.cwr_record.specs.Writers as writers;
ghost use Rattle.cwr_record.specs.Columns as columns;
ghost use Rattle.cwr_record.specs.declared.works.WorkHead.{WorkHead};
ghost use Rattle.cwr_record.specs.declared.publishers.Publisher.{Publisher};
ghost use Rattle.cwr_record.specs.declared.publishers.PublisherTerritory.{PublisherTerritory};
ghost use Rattle.cwr_record.specs.declared.writers.Writer.{Writer};
ghost use Rattle.cwr_record.specs.declared.writers.WriterTerritory.{WriterTerritory};
ghost use Rattle.cwr_record.specs.declared.writers.Link.{Link};

use crate::control::{GroupTrailer, Header};
use crate::publishers::PublisherTerritory;

/// In a line that stands for a registration's head, the record type is that of its kind.
pub fn heads_are_named()
    ensures { (line : List ℕ) (x : WorkHead) → StandsFor works.work_head line x → type_of line ≡ type_of_work x.kind }
{}

/// In a line that stands for a publisher or for a writer, the calls that read single fields give its record type, party
/// and ownership shares.
pub fn owners_are_read()
    ensures publisher { (line : List ℕ) (x : Publisher) → StandsFor publishers.publisher line x → IsLineOfPublisher line x }
    ensures writer { (line : List ℕ) (x : Writer) → StandsFor writers.writer line x → IsLineOfWriter line x }
{}

/// In a line that stands for a territory of either, the calls that read single fields give its record type, party,
/// collection shares, indicator and territory.
pub fn territories_are_read()
    ensures publisher { (line : List ℕ) (x : PublisherTerritory) → StandsFor publishers.publisher_territory line x → IsLineOfPublisherTerritory line x }
    ensures writer { (line : List ℕ) (x : WriterTerritory) → StandsFor writers.writer_territory line x → IsLineOfWriterTerritory line x }
{}

/// In a line that stands for a writer's publisher, the calls that read single fields give its record type and the
/// publisher's party.
pub fn links_are_read()
    ensures { (line : List ℕ) (x : Link) → StandsFor writers.link line x → IsLineOfLink line x }
{}

/// The columns that no reader names are those of the definitions, too. The texts in them are written and never read.
pub fn written_columns_are_the_same()
    ensures standard_version { Header.STANDARD_VERSION ≡ columns.header_standard_version }
    ensures version { Header.VERSION ≡ columns.header_version }
    ensures revision { Header.REVISION ≡ columns.header_revision }
    ensures software_package { Header.SOFTWARE_PACKAGE ≡ columns.header_software_package }
    ensures software_version { Header.SOFTWARE_VERSION ≡ columns.header_software_version }
    ensures monetary_value { GroupTrailer.MONETARY_VALUE ≡ columns.group_trailer_monetary_value }
    ensures constant { PublisherTerritory.CONSTANT ≡ columns.publisher_territory_constant }
{}
