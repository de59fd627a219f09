//! Written by tools/lists.py from tools/operators.tsv.
use crate::values::{self, Written};
use wasm_below::RefType;
use wasm_imm::{MemArg, Ordering, ResumeTable};

pub fn write_type_index_and_table_index(
    out: &mut String,
    type_index: &u32,
    table_index: &u32,
) -> Written {
    values::number(out, "type_index", type_index)?;
    values::number(out, "table_index", table_index)
}

pub fn write_struct_type_index_and_field_index(
    out: &mut String,
    struct_type_index: &u32,
    field_index: &u32,
) -> Written {
    values::number(out, "struct_type_index", struct_type_index)?;
    values::number(out, "field_index", field_index)
}

pub fn write_array_type_index_and_array_size(
    out: &mut String,
    array_type_index: &u32,
    array_size: &u32,
) -> Written {
    values::number(out, "array_type_index", array_type_index)?;
    values::number(out, "array_size", array_size)
}

pub fn write_array_type_index_and_array_data_index(
    out: &mut String,
    array_type_index: &u32,
    array_data_index: &u32,
) -> Written {
    values::number(out, "array_type_index", array_type_index)?;
    values::number(out, "array_data_index", array_data_index)
}

pub fn write_array_type_index_and_array_elem_index(
    out: &mut String,
    array_type_index: &u32,
    array_elem_index: &u32,
) -> Written {
    values::number(out, "array_type_index", array_type_index)?;
    values::number(out, "array_elem_index", array_elem_index)
}

pub fn write_array_type_index_dst_and_array_type_index_src(
    out: &mut String,
    array_type_index_dst: &u32,
    array_type_index_src: &u32,
) -> Written {
    values::number(out, "array_type_index_dst", array_type_index_dst)?;
    values::number(out, "array_type_index_src", array_type_index_src)
}

pub fn write_relative_depth_and_from_ref_type_and_to_ref_type(
    out: &mut String,
    relative_depth: &u32,
    from_ref_type: &RefType,
    to_ref_type: &RefType,
) -> Written {
    values::number(out, "relative_depth", relative_depth)?;
    values::reference_type(out, "from_ref_type", from_ref_type)?;
    values::reference_type(out, "to_ref_type", to_ref_type)
}

pub fn write_data_index_and_mem(out: &mut String, data_index: &u32, mem: &u32) -> Written {
    values::number(out, "data_index", data_index)?;
    values::number(out, "mem", mem)
}

pub fn write_dst_mem_and_src_mem(out: &mut String, dst_mem: &u32, src_mem: &u32) -> Written {
    values::number(out, "dst_mem", dst_mem)?;
    values::number(out, "src_mem", src_mem)
}

pub fn write_elem_index_and_table(out: &mut String, elem_index: &u32, table: &u32) -> Written {
    values::number(out, "elem_index", elem_index)?;
    values::number(out, "table", table)
}

pub fn write_dst_table_and_src_table(
    out: &mut String,
    dst_table: &u32,
    src_table: &u32,
) -> Written {
    values::number(out, "dst_table", dst_table)?;
    values::number(out, "src_table", src_table)
}

pub fn write_memarg_and_lane(out: &mut String, memarg: &MemArg, lane: &u8) -> Written {
    values::memory_argument(out, "memarg", memarg)?;
    values::lane(out, "lane", lane)
}

pub fn write_ordering_and_global_index(
    out: &mut String,
    ordering: &Ordering,
    global_index: &u32,
) -> Written {
    values::ordering(out, "ordering", ordering)?;
    values::number(out, "global_index", global_index)
}

pub fn write_ordering_and_table_index(
    out: &mut String,
    ordering: &Ordering,
    table_index: &u32,
) -> Written {
    values::ordering(out, "ordering", ordering)?;
    values::number(out, "table_index", table_index)
}

pub fn write_ordering_and_struct_type_index_and_field_index(
    out: &mut String,
    ordering: &Ordering,
    struct_type_index: &u32,
    field_index: &u32,
) -> Written {
    values::ordering(out, "ordering", ordering)?;
    values::number(out, "struct_type_index", struct_type_index)?;
    values::number(out, "field_index", field_index)
}

pub fn write_ordering_and_array_type_index(
    out: &mut String,
    ordering: &Ordering,
    array_type_index: &u32,
) -> Written {
    values::ordering(out, "ordering", ordering)?;
    values::number(out, "array_type_index", array_type_index)
}

pub fn write_argument_index_and_result_index(
    out: &mut String,
    argument_index: &u32,
    result_index: &u32,
) -> Written {
    values::number(out, "argument_index", argument_index)?;
    values::number(out, "result_index", result_index)
}

pub fn write_cont_type_index_and_resume_table(
    out: &mut String,
    cont_type_index: &u32,
    resume_table: &ResumeTable,
) -> Written {
    values::number(out, "cont_type_index", cont_type_index)?;
    values::resume_table(out, "resume_table", resume_table)
}

pub fn write_cont_type_index_and_tag_index_and_resume_table(
    out: &mut String,
    cont_type_index: &u32,
    tag_index: &u32,
    resume_table: &ResumeTable,
) -> Written {
    values::number(out, "cont_type_index", cont_type_index)?;
    values::number(out, "tag_index", tag_index)?;
    values::resume_table(out, "resume_table", resume_table)
}

pub fn write_cont_type_index_and_tag_index(
    out: &mut String,
    cont_type_index: &u32,
    tag_index: &u32,
) -> Written {
    values::number(out, "cont_type_index", cont_type_index)?;
    values::number(out, "tag_index", tag_index)
}
