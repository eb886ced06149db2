//! Proofs that what was written is read back, for each type of record. They use only the contracts of writer and
//! reader.
#![tactic(auto)]

ghost use Rattle.std.specs.Prelude.{◌≡◌, IfOk, Ok};
ghost use Rattle.cwr_record.specs.Lines.{Fits};
ghost use Rattle.cwr_record.specs.Control as control;
ghost use Rattle.cwr_record.specs.Works as works;
ghost use Rattle.cwr_record.specs.Publishers as publishers;
ghost use Rattle.cwr_record.specs.Writers as writers;
ghost use Rattle.cwr_record.specs.Acknowledgement as acknowledgement;

use cwr_record::{
    Ack, AltTitle, CrossRef, FieldFault, FileTrailer, GroupHead, GroupTrailer, Header, Link,
    Memory, Message, Publisher, PublisherTerritory, WorkHead, Writer, WriterTerritory, read_ack,
    read_alt_title, read_cross_ref, read_file_trailer, read_group_head, read_group_trailer,
    read_header, read_link, read_message, read_publisher, read_publisher_territory, read_work_head,
    read_writer, read_writer_territory, write_ack, write_alt_title, write_cross_ref,
    write_file_trailer, write_group_head, write_group_trailer, write_header, write_link,
    write_message, write_publisher, write_publisher_territory, write_work_head, write_writer,
    write_writer_territory,
};
use std::alloc::Allocator;

pub fn header_again<A: Allocator>(
    alloc: A,
    header: &Header,
) -> Result<Result<Header, FieldFault>, Memory>
    requires { Fits control.header header.now }
    ensures { IfOk result (λ again. again ≡ Ok header.now) }
{
    let mut out = Vec::new(alloc);
    write_header(&mut out, header)?;
    Ok(read_header(&out))
}

pub fn group_head_again<A: Allocator>(
    alloc: A,
    head: &GroupHead,
) -> Result<Result<GroupHead, FieldFault>, Memory>
    requires { Fits control.group_head head.now }
    ensures { IfOk result (λ again. again ≡ Ok head.now) }
{
    let mut out = Vec::new(alloc);
    write_group_head(&mut out, head)?;
    Ok(read_group_head(&out))
}

pub fn group_trailer_again<A: Allocator>(
    alloc: A,
    trailer: &GroupTrailer,
) -> Result<Result<GroupTrailer, FieldFault>, Memory>
    requires { Fits control.group_trailer trailer.now }
    ensures { IfOk result (λ again. again ≡ Ok trailer.now) }
{
    let mut out = Vec::new(alloc);
    write_group_trailer(&mut out, trailer)?;
    Ok(read_group_trailer(&out))
}

pub fn file_trailer_again<A: Allocator>(
    alloc: A,
    trailer: &FileTrailer,
) -> Result<Result<FileTrailer, FieldFault>, Memory>
    requires { Fits control.file_trailer trailer.now }
    ensures { IfOk result (λ again. again ≡ Ok trailer.now) }
{
    let mut out = Vec::new(alloc);
    write_file_trailer(&mut out, trailer)?;
    Ok(read_file_trailer(&out))
}

pub fn work_head_again<A: Allocator>(
    alloc: A,
    head: &WorkHead,
) -> Result<Result<WorkHead, FieldFault>, Memory>
    requires { Fits works.work_head head.now }
    ensures { IfOk result (λ again. again ≡ Ok head.now) }
{
    let mut out = Vec::new(alloc);
    write_work_head(&mut out, head)?;
    Ok(read_work_head(&out))
}

pub fn alt_title_again<A: Allocator>(
    alloc: A,
    title: &AltTitle,
) -> Result<Result<AltTitle, FieldFault>, Memory>
    requires { Fits works.alt_title title.now }
    ensures { IfOk result (λ again. again ≡ Ok title.now) }
{
    let mut out = Vec::new(alloc);
    write_alt_title(&mut out, title)?;
    Ok(read_alt_title(&out))
}

pub fn cross_ref_again<A: Allocator>(
    alloc: A,
    reference: &CrossRef,
) -> Result<Result<CrossRef, FieldFault>, Memory>
    requires { Fits works.cross_ref reference.now }
    ensures { IfOk result (λ again. again ≡ Ok reference.now) }
{
    let mut out = Vec::new(alloc);
    write_cross_ref(&mut out, reference)?;
    Ok(read_cross_ref(&out))
}

pub fn publisher_again<A: Allocator>(
    alloc: A,
    publisher: &Publisher,
) -> Result<Result<Publisher, FieldFault>, Memory>
    requires { Fits publishers.publisher publisher.now }
    ensures { IfOk result (λ again. again ≡ Ok publisher.now) }
{
    let mut out = Vec::new(alloc);
    write_publisher(&mut out, publisher)?;
    Ok(read_publisher(&out))
}

pub fn publisher_territory_again<A: Allocator>(
    alloc: A,
    territory: &PublisherTerritory,
) -> Result<Result<PublisherTerritory, FieldFault>, Memory>
    requires { Fits publishers.publisher_territory territory.now }
    ensures { IfOk result (λ again. again ≡ Ok territory.now) }
{
    let mut out = Vec::new(alloc);
    write_publisher_territory(&mut out, territory)?;
    Ok(read_publisher_territory(&out))
}

pub fn writer_again<A: Allocator>(
    alloc: A,
    writer: &Writer,
) -> Result<Result<Writer, FieldFault>, Memory>
    requires { Fits writers.writer writer.now }
    ensures { IfOk result (λ again. again ≡ Ok writer.now) }
{
    let mut out = Vec::new(alloc);
    write_writer(&mut out, writer)?;
    Ok(read_writer(&out))
}

pub fn writer_territory_again<A: Allocator>(
    alloc: A,
    territory: &WriterTerritory,
) -> Result<Result<WriterTerritory, FieldFault>, Memory>
    requires { Fits writers.writer_territory territory.now }
    ensures { IfOk result (λ again. again ≡ Ok territory.now) }
{
    let mut out = Vec::new(alloc);
    write_writer_territory(&mut out, territory)?;
    Ok(read_writer_territory(&out))
}

pub fn link_again<A: Allocator>(alloc: A, link: &Link) -> Result<Result<Link, FieldFault>, Memory>
    requires { Fits writers.link link.now }
    ensures { IfOk result (λ again. again ≡ Ok link.now) }
{
    let mut out = Vec::new(alloc);
    write_link(&mut out, link)?;
    Ok(read_link(&out))
}

pub fn ack_again<A: Allocator>(alloc: A, ack: &Ack) -> Result<Result<Ack, FieldFault>, Memory>
    requires { Fits acknowledgement.ack ack.now }
    ensures { IfOk result (λ again. again ≡ Ok ack.now) }
{
    let mut out = Vec::new(alloc);
    write_ack(&mut out, ack)?;
    Ok(read_ack(&out))
}

pub fn message_again<A: Allocator>(
    alloc: A,
    message: &Message,
) -> Result<Result<Message, FieldFault>, Memory>
    requires { Fits acknowledgement.message message.now }
    ensures { IfOk result (λ again. again ≡ Ok message.now) }
{
    let mut out = Vec::new(alloc);
    write_message(&mut out, message)?;
    Ok(read_message(&out))
}
